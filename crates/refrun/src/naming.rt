//! The names of references, from the workload that was run.
ghost use Rattle.std.specs.Prelude.{◌+◌, ◌≡◌, [], IfOk, IfErr, IfSome};
ghost use Rattle.ref_edn.specs.Streams.{ConsumesUpTo};
ghost use Rattle.ref_workload.specs.Run.{IsAtFault};
ghost use Rattle.refrun.specs.Checking.{IsOfChecking};
ghost use Rattle.refrun.specs.Naming.{AreNamesOf};
ghost use Rattle.ref_workload.specs.Streams.{most_input};

use ref_audit::Names;
use ref_edn::{Source, read_one};
use ref_fun::Shareable;
use ref_value::Text;
use ref_workload::RunFault;
use ref_workload::plan::plan;
use ref_workload::streams::read_input;
use std::alloc::{AllocError, Global};

/// No names: each reference is printed by its number.
pub fn no_names(alloc: Global) -> Names
    ensures { result ≡ record { refs = []; atoms = []; agents = [] } }
{
    Names::of(Vec::new(alloc), Vec::new(alloc), Vec::new(alloc))
}

/// Reads a workload to its end, and returns the names of the references that it declares. Nothing is run.
pub fn names_of_text<R: Source>(alloc: Global, reader: &mut R) -> Result<Names, RunFault>
    ensures taken { ConsumesUpTo (R.left reader.old) (R.left reader.new) (most_input + 1) }
    ensures ok { IfOk result (λ names. IfSome (R.left reader.old) (λ text. AreNamesOf text names)) }
    ensures fault { IfErr result (λ f. IfSome (R.left reader.old) (λ text. IsAtFault text f)) }
    ensures kinds { IfErr result IsOfChecking }
{
    let input = read_input(alloc, reader)?;
    names_in(alloc, &input)
}

// The names in the text of a workload.
fn names_in(alloc: Global, text: &[u8]) -> Result<Names, RunFault>
    ensures ok { IfOk result (λ names. AreNamesOf text.now names) }
    ensures fault { IfErr result (λ f. IsAtFault text.now f) }
    ensures kinds { IfErr result IsOfChecking }
{
    let value = read_one(alloc, text)?;
    let plan = plan(alloc, &value)?;
    match shared_names(alloc, plan.names()) {
        Ok(names) => Ok(names),
        Err(_) => Err(RunFault::Memory),
    }
}

fn shared_names(alloc: Global, names: &Names) -> Result<Names, AllocError>
    ensures { IfOk result (λ same. same ≡ names.now) }
{
    let refs = shared(alloc, names.refs())?;
    let atoms = shared(alloc, names.atoms())?;
    let agents = shared(alloc, names.agents())?;
    Ok(Names::of(refs, atoms, agents))
}

fn shared(alloc: Global, texts: &[Text]) -> Result<Vec<Text>, AllocError>
    ensures { IfOk result (λ same. same.items ≡ texts.now) }
{
    let mut same = Vec::with_capacity(alloc, texts.len())?;
    for text in texts {
        same.push(text.share()?)?;
    }
    Ok(same)
}
