// Word lists with what they say, worked out by hand: words with single spaces between them, `=>`, and the command, or `usage`.
use command_words::{Apply, Command, Drill, Lists, read_command};
use listed::{Names, Text};
use std::alloc::{AllocError, Global};
use std::test::Fail;

const ROWS: &str = "apply --url U --page P L => apply U P - - [] false [L]
apply L --url U --page P => apply U P - - [] false [L]
apply --page=P --url=U L M => apply U P - - [] false [L M]
apply L --page P M --url U K => apply U P - - [] false [L M K]
apply --url U --page P --script S --suffixes X --env a,b_2 --brief L => apply U P S X [a b_2] true [L]
apply --brief --env=A --suffixes=X --script=S --page=P --url=U L => apply U P S X [A] true [L]
apply --url U --page P -- L => apply U P - - [] false [L]
apply --url U --page P -- -L --brief => apply U P - - [] false [-L --brief]
apply --url U --page P L -- -- => apply U P - - [] false [L --]
apply --url=a=b --page P L => apply a=b P - - [] false [L]
apply --url= --page= L => apply   - - [] false [L]
apply --url U --page P - => apply U P - - [] false [-]
apply --url U --page P apply => apply U P - - [] false [apply]
apply --url U --page P => usage
apply --page P L => usage
apply --url U L => usage
apply => usage
apply --url U --page => usage
apply --url --page P L => usage
apply --url U --url U --page P L => usage
apply --url U --page P --page P L => usage
apply --url U --page P --script S --script S L => usage
apply --url U --page P --brief --brief L => usage
apply --url U --page P --env a --env b L => usage
apply --url U --page P --brief=true L => usage
apply --url U --page P --pag P L => usage
apply --url U --page P --other L => usage
apply --url U --page P -b L => usage
apply --url U --page P -L => usage
apply -url U --page P L => usage
apply --URL U --page P L => usage
apply --help => usage
apply -h => usage
apply --version => usage
apply -V => usage
apply --url U --page P L --help => usage
apply help => usage
apply --url U --page P --env a, L => usage
apply --url U --page P --env ,a L => usage
apply --url U --page P --env a,,b L => usage
apply --url U --page P --env= L => usage
apply --url U --page P --env a-b L => usage
apply --url U --page P --env é L => usage
apply --url U --page P --env 1,_,Z9 L => apply U P - - [1 _ Z9] false [L]
lists L => lists - [] [L]
lists L M => lists - [] [L M]
lists --suffixes X --env a,a L => lists X [a a] [L]
lists -- --env => lists - [] [--env]
lists => usage
lists --suffixes X => usage
lists --url U L => usage
lists --brief L => usage
lists --suffixes X --suffixes X L => usage
drill 4 => drill false 4
drill --brief 2000 => drill true 2000
drill 1 --brief => drill true 1
drill -- 7 => drill false 7
drill 1999 => drill false 1999
drill 0 => usage
drill 2001 => usage
drill 9999 => usage
drill 10000 => usage
drill 04 => usage
drill 00001 => usage
drill +4 => usage
drill -4 => usage
drill -- -4 => usage
drill 4x => usage
drill 99999999999999999999 => usage
drill => usage
drill 4 5 => usage
drill --brief => usage
drill --suffixes X 4 => usage
Apply --url U --page P L => usage
help => usage
--help => usage
-- => usage";

fn words_of(alloc: Global, line: &str) -> Result<Vec<String>, AllocError> {
    let mut words = Vec::new(alloc);
    for word in line.split_whitespace() {
        words.push(String::from_str(alloc, word)?)?;
    }
    Ok(words)
}

fn names_text(alloc: Global, names: &Names) -> Result<String, AllocError> {
    let mut text = String::from_str(alloc, "[")?;
    for name in names.as_slice() {
        if text.len() > 1 {
            text.push_str(" ")?;
        }
        text.push_str(name.as_str())?;
    }
    text.push_str("]")?;
    Ok(text)
}

fn option_text(value: &Option<Text>) -> &str {
    match value {
        Some(text) => text.as_str(),
        None => "-",
    }
}

fn apply_text(alloc: Global, apply: &Apply) -> Result<String, AllocError> {
    let url = apply.url.as_str();
    let page = apply.page.as_str();
    let script = option_text(&apply.script);
    let suffixes = option_text(&apply.suffixes);
    let env = names_text(alloc, &apply.env)?;
    let brief = apply.brief;
    let lists = names_text(alloc, &apply.lists)?;
    format!(in alloc; "apply {url} {page} {script} {suffixes} {env} {brief} {lists}")
}

fn lists_text(alloc: Global, lists: &Lists) -> Result<String, AllocError> {
    let suffixes = option_text(&lists.suffixes);
    let env = names_text(alloc, &lists.env)?;
    let files = names_text(alloc, &lists.lists)?;
    format!(in alloc; "lists {suffixes} {env} {files}")
}

fn drill_text(alloc: Global, drill: &Drill) -> Result<String, AllocError> {
    let brief = drill.brief;
    let number = drill.number;
    format!(in alloc; "drill {brief} {number}")
}

fn said(alloc: Global, words: &[String]) -> Result<String, AllocError> {
    match read_command(alloc, words)? {
        Some(Command::Apply(apply)) => apply_text(alloc, &apply),
        Some(Command::Lists(lists)) => lists_text(alloc, &lists),
        Some(Command::Drill(drill)) => drill_text(alloc, &drill),
        None => String::from_str(alloc, "usage"),
    }
}

fn check_row(rt: &HostRuntime, row: &str) -> Result<(), Fail> {
    let alloc = rt.alloc();
    let Some((line, wanted)) = row.split_once(" => ") else {
        return Err(Fail::from("a row without `=>`"));
    };
    let words = words_of(alloc, line)?;
    let text = said(alloc, words.as_slice())?;
    if text.as_str() != wanted {
        println!(rt; "{row}: {text}")?;
        return Err(Fail::from("another command"));
    }
    Ok(())
}

#[test]
fn word_lists_say_their_commands(rt: HostRuntime) -> Result<(), Fail> {
    for row in ROWS.lines() {
        check_row(&rt, row)?;
    }
    Ok(())
}

#[test]
fn words_may_be_empty_or_have_spaces(rt: HostRuntime) -> Result<(), Fail> {
    let alloc = rt.alloc();
    let mut words = words_of(alloc, "apply --page P --url")?;
    assert_eq!(rt; said(alloc, &[])?.as_str(), "usage");
    words.push(String::from_str(alloc, "")?)?;
    words.push(String::from_str(alloc, "a list")?)?;
    assert_eq!(rt;
        said(alloc, words.as_slice())?.as_str(),
        "apply  P - - [] false [a list]"
    );
    words.push(String::from_str(alloc, "")?)?;
    assert_eq!(rt;
        said(alloc, words.as_slice())?.as_str(),
        "apply  P - - [] false [a list ]"
    );
    Ok(())
}
