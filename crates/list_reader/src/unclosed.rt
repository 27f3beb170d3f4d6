// The notices of `if`s that stay open, put among the others in the order of lines.
ghost use Rattle.std.specs.Prelude.{◌≡◌, ◌≤◌, ◌++◌, [], length, take, drop, reverse, IfOk, OnOk};
ghost use Rattle.list_reader.specs.Unclosed.{woven, AreNoticed};

use list_entries::{Notice, Notices};
use list_lines::OpenIfs;
use selector_spelling::Cause;
use std::alloc::{AllocError, Global};

// The notices with those of the `if`s that stayed open. They are gone through from the last one on.
pub(crate) fn with_unclosed(
    alloc: Global,
    mut notices: Notices,
    mut ifs: OpenIfs,
) -> Result<Notices, AllocError>
    requires { AreNoticed (length notices) ifs }
    ensures { IfOk result (λ all. all ≡ woven 0 notices ifs []) }
{
    let mut back = Notices::new(alloc);
    'parts: while let Some(part) = ifs.leave() {
        move_from(&mut notices, part.noticed, &mut back)?;
        if let Some(unclosed) = part.unclosed {
            back.push(Notice::Malformed {
                line: unclosed.line,
                cause: Cause::UnclosedIf,
                at: unclosed.at,
            })?;
        }
    }
    move_from(&mut notices, 0, &mut back)?;
    let mut all = Notices::new(alloc);
    move_from(&mut back, 0, &mut all)?;
    Ok(all)
}

// Moves the notices from a place on to the end of others, the last one first.
fn move_from(notices: &mut Notices, place: usize, back: &mut Notices) -> Result<(), AllocError>
    requires { place ≤ length notices.old }
    ensures left { OnOk result (notices.new ≡ take place notices.old) }
    ensures moved { OnOk result (reverse back.new ≡ drop place notices.old ++ reverse back.old) }
{
    let mut at = notices.len();
    while at > place {
        at -= 1;
        back.push(notices.as_slice()[at])?;
    }
    notices.cut(place);
    Ok(())
}
