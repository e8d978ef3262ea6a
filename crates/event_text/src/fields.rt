//! Laws: the numbers of an entry fit their fields. Nothing is done; each function reads what its
//! contract speaks of.
ghost use Rattle.std.specs.Prelude.{◌<◌, ◌^◌, All};
ghost use Rattle.event_text.specs.Regular.{FitsPlace, RequestFits, WhatFits};

use plc_base::BlockId;
use var_access::{Entry, Request, Var, What};

/// The numbers of a variable fit their fields.
fn law_of_var(var: &Var)
    ensures { FitsPlace var.now }
{
    let _number = var.place.number;
    let _byte = var.place.byte;
}

/// The numbers of each variable fit their fields.
pub(crate) fn law_of_vars(vars: &[Var])
    ensures { All FitsPlace vars.now }
{
    for var in vars {
        law_of_var(var);
    }
}

/// The number of a block fits its field.
fn law_of_block(block: &BlockId)
    ensures { block.now.number < 2 ^ 16 }
{
    let _number = block.number;
}

/// The numbers of a request fit their fields.
fn law_of_request(request: &Request)
    ensures { RequestFits request.now }
{
    match request {
        Request::ReadVars { vars } => law_of_vars(vars.as_slice()),
        Request::WriteVar { var, .. } => law_of_var(var),
        Request::MonitorOn { block } => law_of_block(block),
        Request::Stop | Request::Restart | Request::MonitorOff | Request::Diag => {}
    }
}

/// The numbers of what an entry does fit their fields.
fn law_of_what(what: &What)
    ensures { WhatFits what.now }
{
    match what {
        What::Input { value, .. } => {
            let _value = *value;
        }
        What::Arrive { value, .. } => {
            let _value = *value;
        }
        What::Ask { request } => law_of_request(request),
        What::Step | What::Tick { .. } => {}
    }
}

/// The numbers of each entry fit their fields.
pub(crate) fn law_of_fields(entries: &[Entry])
    ensures { All (λ e. WhatFits e.what) entries.now }
{
    for entry in entries {
        law_of_what(&entry.what);
    }
}
