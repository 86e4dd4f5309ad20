//! The lines of indirect calls in the order of nodes, and their count.
ghost use Rattle.std.specs.Prelude.{◌≡◌, ◌++◌, ◌<◌, ◌^◌, ℕ, map, length, slice_get, string_bytes, IfOk, OnOk};
ghost use Rattle.std.specs.List.{flat_map};
ghost use Rattle.sp_ir.specs.Programs.{lowered_of, code_of};
ghost use Rattle.sp_ir.specs.Formed.{IsFormed};
ghost use Rattle.sp_ir.specs.View.{expression_of, lvalue_of, command_of, node_of};
ghost use Rattle.sp_base_sets.specs.Sets.{Ascends};
ghost use Rattle.sp_base_sets.specs.Reached.{row};
ghost use Rattle.sp_run_indirect.specs.Texts.{is_object, is_name, is_indirect, count_of, name_of, callee_text, callees_text, count_text, call_text, node_text, lines_from};
ghost use Rattle.sp_run_indirect.specs.Told.{AreCallsOf};

use sp_graph::CallGraph;
use sp_ir::{Code, Command, Expr, Lowered, Lvalue, Node};
use sp_pre::points_to;
use sp_report::add_place;
use sp_tree::Names;
use std::alloc::{AllocError, Global};

// Whether an lvalue is an object itself.
fn is_object(lvalue: &Lvalue) -> bool
    ensures { result ≡ is_object (lvalue_of lvalue.now) }
{
    match lvalue {
        Lvalue::Direct(..) => true,
        Lvalue::Through(..) | Lvalue::Field(..) => false,
    }
}

// Whether a function is called by its own name.
fn is_name(callee: &Expr) -> bool
    ensures { result ≡ is_name (expression_of callee.now) }
{
    match callee {
        Expr::Address(lvalue) => is_object(lvalue),
        Expr::Number(..)
        | Expr::Decay(_)
        | Expr::Read(_)
        | Expr::Convert(..)
        | Expr::Unary(..)
        | Expr::Binary(..)
        | Expr::Compare(..)
        | Expr::Move { .. }
        | Expr::Distance { .. } => false,
    }
}

// Whether a command is an indirect call.
fn is_indirect(command: &Command) -> bool
    ensures { result ≡ is_indirect (command_of command.now) }
{
    match command {
        Command::Call { callee, .. } => !is_name(callee),
        _ => false,
    }
}

// How many of the nodes are indirect calls.
fn count_of(nodes: &[Node]) -> usize
    ensures { result ≡ count_of (map node_of nodes.now) }
{
    let mut count = 0;
    for node in nodes {
        if is_indirect(&node.command) {
            count += 1;
        }
    }
    count
}

// The name of a function that is defined.
fn name_of<'a>(lowered: &'a Lowered, code: &Code) -> &'a [u8]
    ensures { result.now ≡ name_of (lowered_of lowered.now) (Some (code_of code.now)) }
{
    match lowered.objects.get(code.object as usize) {
        Some(object) => object.name.as_slice(),
        None => &[],
    }
}

// Adds the function of a number.
fn add_callee(lowered: &Lowered, function: u32, text: &mut Vec<u8>) -> Result<(), AllocError>
    ensures { OnOk result (text.new.items ≡
        text.old.items ++ callee_text (lowered_of lowered.now) function) }
{
    text.push(b' ')?;
    if let Some(code) = lowered.functions.get(function as usize) {
        text.extend_from_slice(name_of(lowered, code))?;
    }
    Ok(())
}

// Adds functions.
fn add_more(lowered: &Lowered, functions: &[u32], text: &mut Vec<u8>) -> Result<(), AllocError>
    ensures { OnOk result (text.new.items ≡
        text.old.items ++ flat_map (callee_text (lowered_of lowered.now)) functions.now) }
{
    for function in functions {
        add_callee(lowered, *function, text)?;
    }
    Ok(())
}

// Adds functions, or that there is none.
fn add_callees(lowered: &Lowered, functions: &[u32], text: &mut Vec<u8>) -> Result<(), AllocError>
    ensures { OnOk result (text.new.items ≡
        text.old.items ++ callees_text (lowered_of lowered.now) functions.now) }
{
    match functions {
        [] => text.extend_from_slice(b" none"),
        [function, more @ ..] => {
            add_callee(lowered, *function, text)?;
            add_more(lowered, more, text)
        }
    }
}

// Adds the line of a node that calls these functions.
fn add_call(
    alloc: Global,
    names: &Names,
    lowered: &Lowered,
    node: &Node,
    callees: &[u32],
    text: &mut Vec<u8>,
) -> Result<(), AllocError>
    ensures { OnOk result (text.new.items ≡ text.old.items ++
        call_text names.now (lowered_of lowered.now) (node_of node.now) callees.now) }
{
    add_place(alloc, names, node.place, text)?;
    text.push(b':')?;
    add_callees(lowered, callees, text)?;
    text.push(b'\n')?;
    Ok(())
}

// Adds it where the node is an indirect call.
fn add_node(
    alloc: Global,
    names: &Names,
    lowered: &Lowered,
    node: &Node,
    callees: &[u32],
    text: &mut Vec<u8>,
) -> Result<(), AllocError>
    ensures { OnOk result (text.new.items ≡ text.old.items ++
        node_text names.now (lowered_of lowered.now) (node_of node.now) callees.now) }
{
    if is_indirect(&node.command) {
        add_call(alloc, names, lowered, node, callees, text)?;
    }
    Ok(())
}

// The lines of all nodes, which call these functions.
fn lines_of(
    alloc: Global,
    names: &Names,
    lowered: &Lowered,
    calls: &CallGraph,
) -> Result<Vec<u8>, AllocError>
    requires { length (lowered_of lowered.now).nodes < 2 ^ 32 }
    ensures lines { IfOk result (λ text. text.items ≡ lines_from names.now
        (lowered_of lowered.now) calls.now 0 (lowered_of lowered.now).nodes) }
    ensures in_order { OnOk result ((n : ℕ) → n < length (lowered_of lowered.now).nodes →
        Ascends (row calls.now n)) }
{
    let mut text = Vec::new(alloc);
    for (k, node) in lowered.nodes.iter().enumerate() {
        let callees = calls.callees(k as u32);
        add_node(alloc, names, lowered, node, callees, &mut text)?;
    }
    Ok(text)
}

// `1 indirect call` or `N indirect calls`, and a newline.
fn count_text(alloc: Global, count: usize) -> Result<String, AllocError>
    ensures { IfOk result (λ s. string_bytes s ≡ count_text count) }
{
    if count == 1 {
        String::from_str(alloc, "1 indirect call\n")
    } else {
        format!(in alloc; "{count} indirect calls\n")
    }
}

/// The indirect calls of a formed program: a line for each node that is one, in the order of nodes,
/// with its place and the functions that it calls, and then how many there are. `names` tells the
/// bytes of each file's name. More objects than 2^32 want memory.
pub fn print_calls(alloc: Global, names: &Names, lowered: &Lowered) -> Result<Vec<u8>, AllocError>
    requires { IsFormed (lowered_of lowered.now) }
    ensures { IfOk result (λ text. AreCallsOf (lowered_of lowered.now) names.now text.items) }
{
    let pre = points_to(alloc, lowered)?;
    let mut text = lines_of(alloc, names, lowered, pre.calls())?;
    let count = count_of(&lowered.nodes);
    text.extend_from_slice(count_text(alloc, count)?.as_bytes())?;
    Ok(text)
}
