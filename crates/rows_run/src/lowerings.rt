//! From texts to the lowering of their program.
ghost use Rattle.std.specs.Prelude.{◌≡◌, [], map, IfOk};
ghost use Rattle.sp_ir.specs.Programs as ir;
ghost use Rattle.sp_ir.specs.Formed.{IsFormed};
ghost use Rattle.sp_front.specs.Sources.{source_of, AreWithin};

use sp_base_checked::CheckError;
use sp_front::{FrontError, MAX_FILES, MAX_TEXT, Source};
use sp_ir::Lowered;
use sp_tree::Names;
use std::alloc::{AllocError, Global};

fn file_name(number: usize) -> &'static [u8] {
    if number == 0 {
        b"a.c".as_slice()
    } else {
        b"b.c".as_slice()
    }
}

/// The texts as files. Where they are past the limits of files, memory counts as wanted.
fn sources_of(alloc: Global, texts: &[Vec<u8>]) -> Result<Vec<Source>, AllocError>
    ensures { IfOk result (λ sources. AreWithin (map source_of sources.items)) }
{
    if texts.len() > MAX_FILES {
        return Err(AllocError);
    }
    let mut sources = Vec::new(alloc);
    let mut room = MAX_TEXT;
    'texts: for (k, text) in texts.iter().enumerate() {
        if text.len() > room {
            return Err(AllocError);
        }
        room -= text.len();
        let name = Vec::from_slice(alloc, file_name(k))?;
        let text = Vec::from_slice(alloc, text)?;
        sources.push(Source { name, text })?;
    }
    Ok(sources)
}

/// The lowering of the program that texts make, or the first fault. The contract says that it is
/// formed, which is what rows ask of it.
pub fn lowered_of(
    alloc: Global,
    texts: &[Vec<u8>],
    names: &mut Names,
) -> Result<Lowered, CheckError>
    requires { names.old ≡ [] }
    ensures { IfOk result (λ lowered. IsFormed (ir.lowered_of lowered)) }
{
    let sources = sources_of(alloc, texts)?;
    match sp_front::lowered_of(alloc, &sources, names) {
        Ok(lowered) => Ok(lowered),
        Err(FrontError::Fault(fault)) => Err(CheckError::Fault(fault)),
        Err(FrontError::NoMemory) => Err(CheckError::NoMemory),
    }
}
