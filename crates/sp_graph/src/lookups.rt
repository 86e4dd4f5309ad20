//! What a program tells of a node and of a function, by numbers.
ghost use Rattle.std.specs.Prelude.{◌≡◌};
ghost use Rattle.sp_ir.specs.Programs.{lowered_of};
ghost use Rattle.sp_ir.specs.View.{command_of};
ghost use Rattle.sp_graph.specs.Calls.{function_of, returned_by, call_of, entry_of, exit_of};

use sp_ir::{Command, Lowered};

pub(crate) fn function_of(lowered: &Lowered, node: u32) -> Option<u32>
    ensures { result ≡ function_of (lowered_of lowered.now) node }
{
    let found = lowered.nodes.get(node as usize)?;
    found.function
}

pub(crate) fn entry_of(lowered: &Lowered, function: u32) -> Option<u32>
    ensures { result ≡ entry_of (lowered_of lowered.now) function }
{
    let code = lowered.functions.get(function as usize)?;
    Some(code.entry)
}

pub(crate) fn exit_of(lowered: &Lowered, function: u32) -> Option<u32>
    ensures { result ≡ exit_of (lowered_of lowered.now) function }
{
    let code = lowered.functions.get(function as usize)?;
    Some(code.exit)
}

/// The call from which a node returns.
pub(crate) fn call_of(lowered: &Lowered, node: u32) -> Option<u32>
    ensures { result ≡ call_of (lowered_of lowered.now) node }
{
    let found = lowered.nodes.get(node as usize)?;
    returned_by(&found.command)
}

fn returned_by(command: &Command) -> Option<u32>
    ensures { result ≡ returned_by (command_of command.now) }
{
    match command {
        Command::Return { call, .. } => Some(*call),
        Command::Start
        | Command::Entry { .. }
        | Command::Exit { .. }
        | Command::Skip
        | Command::Assign { .. }
        | Command::Copy { .. }
        | Command::Init { .. }
        | Command::Assume { .. }
        | Command::Eval(_)
        | Command::Call { .. }
        | Command::Library { .. }
        | Command::Outside { .. } => None,
    }
}
