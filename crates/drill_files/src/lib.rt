//! The page, the list and the script of a drill, made for its size.
#![tactic(auto)]

ghost use Rattle.std.specs.Prelude.{◌≡◌, ◌≤◌, ◌*◌, ◌++◌, IfOk, OnOk, length, string_bytes};
ghost use Rattle.command_meaning.specs.Generator.{block, class_of, drill_line, drill_list, drill_page, drill_script};

use std::alloc::{AllocError, Global};

/// The page: blocks of five nodes, without anything between them.
///
/// # Errors
///
/// Only want of memory.
pub fn drill_page(alloc: Global, number: u16) -> Result<String, AllocError>
    ensures text { IfOk result (λ page. string_bytes page ≡ drill_page number) }
    ensures size { IfOk result (λ page. length (string_bytes page) ≤ 200 * number) }
{
    let mut page = String::new(alloc);
    for i in 0..number {
        push_block(&mut page, i + 1)?;
    }
    Ok(page)
}

// The block of this number: a row with a link and a text.
fn push_block(page: &mut String, i: u16) -> Result<(), AllocError>
    ensures { OnOk result (string_bytes page.new ≡ string_bytes page.old ++ block i) }
{
    let class = class_of(i);
    write!(
        page,
        "<div class=\"row\" id=\"r{i}\"><a class=\"{class}\">t{i}</a><p>text {i}</p></div>"
    )
}

// Every third link is an ad.
fn class_of(i: u16) -> &'static str
    ensures { result.now ≡ class_of i }
{
    if i % 3 == 0 { "ad" } else { "ok" }
}

/// The list.
pub fn drill_list() -> &'static str
    ensures { result.now ≡ drill_list }
{
    "##.ad\n##.row:has(> .ad)\n##p:has-text(text 7)\n##.gone:remove()\n##.hit + p\n"
}

/// The script: a line for each block, and in each four of them a class that is shown, a move, an element that goes, and a text.
///
/// # Errors
///
/// Only want of memory.
pub fn drill_script(alloc: Global, number: u16) -> Result<String, AllocError>
    ensures text { IfOk result (λ script. string_bytes script ≡ drill_script number) }
    ensures size { IfOk result (λ script. length (string_bytes script) ≤ 200 * number) }
{
    let mut script = String::new(alloc);
    for i in 0..number {
        push_line(&mut script, i + 1)?;
        script.push_str("\n")?;
    }
    Ok(script)
}

// The line of this number, without its end. The nodes of block `i` have the numbers from `5 * i - 4` to `5 * i`.
fn push_line(script: &mut String, i: u16) -> Result<(), AllocError>
    ensures { OnOk result (string_bytes script.new ≡ string_bytes script.old ++ drill_line i) }
{
    let last = 5 * u32::from(i);
    match i % 4 {
        1 => write!(script, "attr {} class hit", last - 3),
        2 => write!(script, "move {} 0 0", last - 4),
        3 => write!(script, "attr {} class gone", last - 3),
        _ => write!(script, "text {last} text 7"),
    }
}

#[cfg(test)]
mod tests {
    use super::*;
    use std::test::Fail;

    #[test]
    fn a_small_drill(rt: HostRuntime) -> Result<(), Fail> {
        let page = drill_page(rt.alloc(), 2)?;
        assert_eq!(rt;
            page.as_str(),
            "<div class=\"row\" id=\"r1\"><a class=\"ok\">t1</a><p>text 1</p></div>\
             <div class=\"row\" id=\"r2\"><a class=\"ok\">t2</a><p>text 2</p></div>"
        );
        let script = drill_script(rt.alloc(), 4)?;
        assert_eq!(rt;
            script.as_str(),
            "attr 2 class hit\nmove 6 0 0\nattr 12 class gone\ntext 20 text 7\n"
        );
        Ok(())
    }
}
