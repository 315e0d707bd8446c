//! From a query text to its catalogue.
ghost use Rattle.std.specs.Prelude.{◌≡◌, IfErr, IfOk, length};
ghost use Rattle.stream_schema.specs.Streams.{AreThere};
ghost use Rattle.catalogue.specs.Judgement.{Circles, Refuses};
ghost use Rattle.catalogue.specs.Loaded.{IsLoadedFrom};
ghost use Rattle.catalogue.specs.Loading.{AcceptsFile, RefusesFile};
ghost use Rattle.catalogue.specs.Parts.{parts_of, judged_of};
ghost use Rattle.catalogue.specs.Telling.{Tells};

use crate::accepted::Catalogue;
use crate::arranging::arrange;
use crate::declaring::declare_all;
use crate::fault::LoadFault;
use crate::filing::file_of;
use crate::laying::Typed;
use crate::publishing::publish_all;
use cel_parser::File;
use std::alloc::Global;

/// The catalogue of a query text, or its first fault: of its length, its tokens, its statements, their
/// names, the names that they read, a cycle, the types of its declarations, or those of its queries.
pub fn load(alloc: Global, text: &[u8]) -> Result<Catalogue, LoadFault>
    ensures ok { IfOk result (IsLoadedFrom text.now) }
    ensures err { IfErr result (Tells (Refuses text.now) (Circles text.now)) }
{
    let file = file_of(alloc, text)?;
    let typed = type_file(alloc, &file)?;
    Ok(Catalogue::make(alloc, file, typed)?)
}

// The streams of a file, and its queries in the order of work; or the first fault of names or types.
fn type_file(alloc: Global, file: &File) -> Result<Typed, LoadFault>
    ensures ok { IfOk result (λ typed. AcceptsFile file.now (judged_of (parts_of file.now typed.streams typed.order typed.expressions))) }
    ensures typed { IfOk result (λ typed. length typed.expressions ≡ length typed.order) }
    ensures there { IfOk result (λ typed. AreThere typed.streams) }
    ensures err { IfErr result (RefusesFile file.now) }
{
    let order = arrange(alloc, file)?;
    let mut streams = declare_all(alloc, file)?;
    let expressions = publish_all(alloc, file, &order, &mut streams)?;
    Ok(Typed {
        streams,
        order,
        expressions,
    })
}
