ghost use Rattle.std.specs.Prelude.{◌≡◌, false};
ghost use mathlib.Core.List.{IsPrefix};
ghost use Rattle.css_domain.specs.Records.{words_of};

use crate::gate::Gate;
use crate::root::root_stands;
use css_domain::Domain;
use css_log::{Note, Reader};
use css_prune::Pruner;
use css_store::{Growth, Store, StoreName};
use std::alloc::Global;
use std::sync::Wait;

/// Pulls what is published, takes in its new words and finds whether the root stands among the records. The workers
/// are asked to stop where it does, or for want of memory. Answers whether they are asked.
fn search_once<D: Domain, N: StoreName, G: Gate>(
    rt: &impl Wait,
    alloc: Global,
    store: &Store<D, N>,
    reader: &mut Reader,
    pruner: &mut Pruner,
    note: Note,
    gate: &G,
) -> bool
    requires own { reader.old.log ≡ N.log }
    requires note { note.log ≡ N.log }
    requires taken { IsPrefix (words_of pruner.old) reader.old.copy }
    ensures own { reader.new.log ≡ N.log }
    ensures taken { result ≡ false → IsPrefix (words_of pruner.new) reader.new.copy }
{
    store.learn(reader, note);
    let front = store.look(reader);
    if store.pull(reader).is_err() {
        store.stop(rt, reader);
        return true;
    }
    let Ok(stands) = root_stands(alloc, pruner, reader.words()) else {
        store.stop(rt, reader);
        return true;
    };
    gate.searched(front, stands);
    if stands {
        store.stop(rt, reader);
    }
    stands
}

/// What the searcher does beside the workers: it waits until more is published than it has seen, and searches that,
/// until it asks the workers to stop or none is left. The records that it has read it keeps.
pub(crate) fn search_beside<D: Domain, N: StoreName, G: Gate>(
    rt: &impl Wait,
    alloc: Global,
    store: &Store<D, N>,
    mut reader: Reader,
    gate: &G,
) -> Reader
    requires { reader.log ≡ N.log }
    ensures { result.log ≡ N.log }
{
    let Ok(mut pruner) = Pruner::new(alloc) else {
        store.stop(rt, &mut reader);
        return reader;
    };
    for _ in rt.forever() {
        let seen = reader.words().len() as u64;
        let Growth::Grown(note) = store.await_growth(rt, seen) else {
            break;
        };
        if search_once(rt, alloc, store, &mut reader, &mut pruner, note, gate) {
            break;
        }
    }
    reader
}
