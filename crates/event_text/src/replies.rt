ghost use Rattle.std.specs.Prelude.{◌≡◌, ◌++◌, length, take, OnErr, OnOk};
ghost use Rattle.event_text.specs.Replies.{outcome_text, vars_of_request, records_text, reply_head, reply_text, values_text};

use crate::writing::{append_number, append_value, operator_of};
use monitor::{DiagRecord, diag_line};
use plc_base::NoMemory;
use var_access::{Reply, Request, Var};

/// The variables that a request reads.
fn vars_of_request(request: &Request) -> &[Var]
    ensures { result.now ≡ vars_of_request request.now }
{
    match request {
        Request::ReadVars { vars } => vars.as_slice(),
        _ => &[],
    }
}

/// Appends the values of variables, each at its width behind a blank.
#[tactic(auto, using(crate::proofs::ReplyLemmas::no_values_left))]
fn append_values(vars: &[Var], values: &[u32], out: &mut Vec<u8>) -> Result<(), NoMemory>
    ensures ok { OnOk result (out.new.items ≡ out.old.items ++ values_text vars.now values.now) }
    ensures err { OnErr result (take (length out.old.items) out.new.items ≡ out.old.items) }
{
    let mut left = vars;
    for value in values {
        let [var, rest @ ..] = left else {
            return Ok(());
        };
        out.extend_from_slice(b" ")?;
        append_value(var.width, *value, out)?;
        left = rest;
    }
    Ok(())
}

/// Appends a line for each record of diagnostics, in the reply to entry `n`.
fn append_records(n: u64, records: &[DiagRecord], out: &mut Vec<u8>) -> Result<(), NoMemory>
    ensures ok { OnOk result (out.new.items ≡ out.old.items ++ records_text n records.now) }
    ensures err { OnErr result (take (length out.old.items) out.new.items ≡ out.old.items) }
{
    for record in records {
        diag_line(n, record, out)?;
    }
    Ok(())
}

/// Appends what the reply to entry `n` says, and the line's end.
#[tactic(auto, unfolding(crate::specs::Replies::outcome_text))]
fn append_outcome(
    n: u64,
    request: &Request,
    reply: &Reply,
    out: &mut Vec<u8>,
) -> Result<(), NoMemory>
    ensures ok { OnOk result
        (out.new.items ≡ out.old.items ++ outcome_text n request.now reply.now) }
    ensures err { OnErr result (take (length out.old.items) out.new.items ≡ out.old.items) }
{
    match reply {
        Reply::Values { values } => {
            out.extend_from_slice(b" VALUES")?;
            append_values(vars_of_request(request), values.as_slice(), out)?;
            out.extend_from_slice(b"\n")
        }
        Reply::Done => out.extend_from_slice(b" DONE\n"),
        Reply::NoSuch { index } => {
            out.extend_from_slice(b" NOSUCH ")?;
            append_number(u64::from(*index), out)?;
            out.extend_from_slice(b"\n")
        }
        Reply::NotStopped => out.extend_from_slice(b" NOTSTOPPED\n"),
        Reply::Diag { list } => {
            let records = list.as_slice();
            out.extend_from_slice(b" DIAG ")?;
            append_number(records.len() as u64, out)?;
            out.extend_from_slice(b"\n")?;
            append_records(n, records, out)
        }
    }
}

/// Appends what the reply to entry `n` says, as `reply_lines` does, without the number of the entry
/// and the operator in front.
///
/// # Errors
///
/// `NoMemory` for want of memory; the text is then as before.
pub fn outcome_lines(
    n: u64,
    request: &Request,
    reply: &Reply,
    out: &mut Vec<u8>,
) -> Result<(), NoMemory>
    ensures ok { OnOk result
        (out.new.items ≡ out.old.items ++ outcome_text n request.now reply.now) }
    ensures err { OnErr result (out.new.items ≡ out.old.items) }
{
    let len = out.len();
    let appended = append_outcome(n, request, reply, out);
    if appended.is_err() {
        out.truncate(len);
    }
    appended
}

/// Appends how a reply to entry `n` begins, with the operator who asked.
fn append_reply_head(n: u64, who: u8, out: &mut Vec<u8>) -> Result<(), NoMemory>
    ensures ok { OnOk result (out.new.items ≡ out.old.items ++ reply_head n who) }
    ensures err { OnErr result (take (length out.old.items) out.new.items ≡ out.old.items) }
{
    out.extend_from_slice(b"@")?;
    append_number(n, out)?;
    out.extend_from_slice(b" OP ")?;
    append_number(u64::from(operator_of(who)), out)
}

/// Appends a reply, whole or in part.
#[tactic(auto, unfolding(crate::specs::Replies::reply_text))]
fn append_reply(
    n: u64,
    who: u8,
    request: &Request,
    reply: &Reply,
    out: &mut Vec<u8>,
) -> Result<(), NoMemory>
    ensures ok { OnOk result
        (out.new.items ≡ out.old.items ++ reply_text n who request.now reply.now) }
    ensures err { OnErr result (take (length out.old.items) out.new.items ≡ out.old.items) }
{
    append_reply_head(n, who, out)?;
    append_outcome(n, request, reply, out)
}

/// Appends the lines that tell the reply to entry `n`, a request of worker `who`: `@N OP k`, and
/// then `VALUES h ..` (each value at its width, a bit as one digit), `DONE`, `NOSUCH i`,
/// `NOTSTOPPED`, or `DIAG n` and n lines `@N DIAG e code info`. Of values without variables, or the
/// other way round, none are told.
///
/// # Errors
///
/// `NoMemory` for want of memory; the text is then as before.
pub fn reply_lines(
    n: u64,
    who: u8,
    request: &Request,
    reply: &Reply,
    out: &mut Vec<u8>,
) -> Result<(), NoMemory>
    ensures ok { OnOk result
        (out.new.items ≡ out.old.items ++ reply_text n who request.now reply.now) }
    ensures err { OnErr result (out.new.items ≡ out.old.items) }
{
    let len = out.len();
    let appended = append_reply(n, who, request, reply, out);
    if appended.is_err() {
        out.truncate(len);
    }
    appended
}
