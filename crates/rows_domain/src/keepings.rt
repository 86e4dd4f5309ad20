//! Rows on triples of a node, a location and a node that are kept: in which form, and what it
//! tells.
use crate::fields::field;
use crate::triples::checked;
use sp_engine_keeping::Keeping;
use std::alloc::{AllocError, Global};

// The numbers from one to another, both included.
#[derive(Clone, Copy)]
struct Span {
    first: u32,
    last: u32,
}

// The triples of each node of a span, each location of one and each target of one.
#[derive(Clone, Copy)]
struct Block {
    froms: Span,
    locations: Span,
    targets: Span,
}

// `3` or `3-7`
fn span_of(text: &str) -> Option<Span> {
    let (first, last) = text.split_once('-').unwrap_or((text, text));
    Some(Span {
        first: first.parse().ok()?,
        last: last.parse().ok()?,
    })
}

// `NODES:LOCATIONS:TARGETS`
fn block_of(text: &str) -> Option<Block> {
    let (froms, rest) = text.split_once(':')?;
    let (locations, targets) = rest.split_once(':')?;
    Some(Block {
        froms: span_of(froms)?,
        locations: span_of(locations)?,
        targets: span_of(targets)?,
    })
}

// Blocks, apart by blanks; none where one isn't understood.
fn blocks_of(alloc: Global, text: &str) -> Result<Option<Vec<Block>>, AllocError> {
    let mut blocks = Vec::new(alloc);
    for word in text.split_whitespace() {
        match block_of(word) {
            Some(block) => blocks.push(block)?,
            None => return Ok(None),
        }
    }
    Ok(Some(blocks))
}

// The pairs of location and target that blocks give a node, in their order.
fn row_of(alloc: Global, blocks: &[Block], from: u32) -> Result<Vec<(u32, u32)>, AllocError> {
    let mut row = Vec::new(alloc);
    for block in blocks {
        if block.froms.first <= from && from <= block.froms.last {
            for location in block.locations.first..=block.locations.last {
                for target in block.targets.first..=block.targets.last {
                    row.push((location, target))?;
                }
            }
        }
    }
    Ok(row)
}

// The pairs of each of so many nodes.
fn lists_of(
    alloc: Global,
    nodes: u32,
    blocks: &[Block],
) -> Result<Vec<Vec<(u32, u32)>>, AllocError> {
    let mut lists = Vec::new(alloc);
    for from in 0..nodes {
        lists.push(row_of(alloc, blocks, from)?)?;
    }
    Ok(lists)
}

fn add_triple(
    alloc: Global,
    text: &mut String,
    from: u32,
    location: u32,
    target: u32,
) -> Result<(), AllocError> {
    let triple = format!(in alloc; " {from}:{location}:{target}")?;
    text.push_str(triple.as_str())
}

// The triples of a block that are kept.
fn tell_held(
    alloc: Global,
    text: &mut String,
    kept: &Keeping,
    block: Block,
) -> Result<(), AllocError> {
    for from in block.froms.first..=block.froms.last {
        for location in block.locations.first..=block.locations.last {
            for target in block.targets.first..=block.targets.last {
                if kept.holds(from, location, target) {
                    add_triple(alloc, text, from, location, target)?;
                }
            }
        }
    }
    Ok(())
}

// All triples that leave the nodes of a block.
fn tell_after(
    alloc: Global,
    text: &mut String,
    kept: &Keeping,
    nodes: Span,
) -> Result<(), AllocError> {
    for from in nodes.first..=nodes.last {
        for (location, target) in &kept.after(from)? {
            add_triple(alloc, text, from, *location, *target)?;
        }
    }
    Ok(())
}

// The form, what of the blocks is held, and what leaves their nodes.
fn tell(alloc: Global, kept: &Keeping, asked: &[Block]) -> Result<String, AllocError> {
    let mut text = match kept.diagram_nodes() {
        Some(nodes) => format!(in alloc; "diagram {nodes}")?,
        None => String::from_str(alloc, "list")?,
    };
    text.push_str("; holds")?;
    for block in asked {
        tell_held(alloc, &mut text, kept, *block)?;
    }
    text.push_str("; after")?;
    for block in asked {
        tell_after(alloc, &mut text, kept, block.froms)?;
    }
    Ok(text)
}

// The nodes, the locations and the limit.
fn head_of(row: &[&str]) -> Option<(u32, u32, u64)> {
    Some((
        field(row, 1).parse().ok()?,
        field(row, 2).parse().ok()?,
        field(row, 3).parse().ok()?,
    ))
}

/// The answer to a row `keeping NODES LOCATIONS LIMIT; BLOCK ..; BLOCK ..`: the blocks of triples
/// that are kept, and those asked for. It tells the form, with the nodes of a diagram, which triples
/// of the blocks are held, and all that leave the nodes of the blocks.
pub(crate) fn answer(alloc: Global, line: &str) -> Result<Option<String>, AllocError> {
    let (head, rest) = line.split_once(';').unwrap_or((line, ""));
    let (triples, asked) = rest.split_once(';').unwrap_or((rest, ""));
    let head: Vec<&str> = head.split_whitespace().collect(alloc)?;
    let Some((nodes, locations, limit)) = head_of(&head) else {
        return Ok(None);
    };
    let (Some(blocks), Some(asked)) = (blocks_of(alloc, triples)?, blocks_of(alloc, asked)?) else {
        return Ok(None);
    };
    let lists = lists_of(alloc, nodes, &blocks)?;
    let Some(rows) = checked(alloc, &lists, locations)? else {
        return Ok(None);
    };
    let kept = Keeping::keep(alloc, rows, locations, limit)?;
    Ok(Some(tell(alloc, &kept, &asked)?))
}
