//! The variables that a watch reads: those of a script with a single line, a `read`.
ghost use Rattle.std.specs.Prelude.{◌≡◌, ◌≤◌, None, length, IfOk, IfSome};
ghost use Rattle.flat_code.specs.Names.{find};
ghost use Rattle.var_access.specs.Entry.{IsInRange, IsRequest};
ghost use Rattle.var_access.specs.declared.requests.Request.TheVariants.{ReadVars};
ghost use Rattle.event_text.specs.Lines.{line_read};
ghost use Rattle.event_text.specs.Regular.{IsRegularOf};
ghost use Rattle.event_text.specs.WatchedVars.{vars_of_read_request, vars_behind, vars_or_no_request, watched_vars_of};
ghost use Rattle.event_text.specs.Workers.{request_entry};
ghost use Rattle.event_text.specs.declared.kinds.TextKind.TheVariants.{Script};

use crate::fields::law_of_vars;
use crate::kinds::TextKind;
use crate::lines::{LineEntries, read_line};
use flat_code::Names;
use plc_base::{Refusal, first_line};
use var_access::{Entry, Request, Vars, What};

/// The rule that a line breaks which isn't a `read`, or isn't the only one.
const NOT_ONE_READ: u16 = 7;

/// The worker of operator 4.
const LAST_OPERATOR: u8 = 6;

/// The variables of a line that asks for something.
fn vars_asked(line: u32, entry: &Entry) -> Result<Option<Vars>, Refusal>
    requires { IsInRange entry.now.what }
    ensures value { result ≡ vars_of_read_request line entry.now.what }
    ensures valid { IfOk result (λ o. IfSome o (λ vars. IsRequest (ReadVars vars))) }
{
    match &entry.what {
        What::Ask {
            request: Request::ReadVars { vars },
        } => Ok(Some(*vars)),
        _ => Err(Refusal {
            line,
            rule: NOT_ONE_READ,
        }),
    }
}

/// The variables behind a line, with those that were found before it.
fn vars_behind(
    names: &Names,
    line: u32,
    text: &[u8],
    found: Option<Vars>,
) -> Result<Option<Vars>, Refusal>
    requires { IfSome found (λ vars. IsRequest (ReadVars vars)) }
    ensures value { result ≡ vars_behind line found
        (line_read (Script 6) (find names.now) 0 text.now) }
    ensures valid { IfOk result (λ o. IfSome o (λ vars. IsRequest (ReadVars vars))) }
{
    let kind = TextKind::Script { who: LAST_OPERATOR };
    match read_line(kind, names, 0, text) {
        Err(rule) => Err(Refusal { line, rule }),
        Ok(LineEntries::Nothing) => Ok(found),
        Ok(LineEntries::Steps { .. }) => unreachable!(),
        Ok(LineEntries::One { entry }) if found.is_none() => vars_asked(line, &entry),
        Ok(LineEntries::One { .. }) => Err(Refusal {
            line,
            rule: NOT_ONE_READ,
        }),
    }
}

/// The variables that were found in a whole script.
fn only_vars(found: Option<Vars>) -> Result<Vars, Refusal>
    requires { IfSome found (λ vars. IsRequest (ReadVars vars)) }
    ensures value { result ≡ vars_or_no_request found }
    ensures regular { IfOk result (λ vars. IsRegularOf 6 (request_entry 6 (ReadVars vars))) }
{
    match found {
        Some(vars) => {
            // the numbers of each variable fit their fields
            law_of_vars(vars.as_slice());
            Ok(vars)
        }
        None => Err(Refusal {
            line: 1,
            rule: NOT_ONE_READ,
        }),
    }
}

/// The variables of the only line of a script, which is a `read`, with the names of a program's
/// variables.
///
/// # Errors
///
/// The first line that breaks a rule of scripts, or rule 7: that isn't a `read`, or is a second
/// one. A script without lines breaks rule 7 in line 1.
pub fn read_watched_vars(bytes: &[u8], names: &Names) -> Result<Vars, Refusal>
    requires { length bytes.now ≤ 1048576 }
    ensures value { result ≡ watched_vars_of names.now bytes.now }
    ensures regular { IfOk result (λ vars. IsRegularOf 6 (request_entry 6 (ReadVars vars))) }
{
    let mut found = None;
    let mut number: u32 = 1;
    let mut rest = bytes;
    while !rest.is_empty() {
        let (line, behind) = first_line(rest);
        found = vars_behind(names, number, line, found)?;
        number += 1;
        rest = behind;
    }
    only_vars(found)
}
