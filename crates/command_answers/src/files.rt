// The files that the words name: plans, extensions, and texts of requests.
ghost use Rattle.std.specs.Prelude.{◌≡◌, IfOk, IfErr, IfSome};
ghost use Rattle.command_answers.specs.Given.{IsExtensionOf, IsPlanOf};
ghost use Rattle.command_answers.specs.Statuses.{IsOfSurroundings};

use crate::endings::Fault;
use plan_basics::Watched;
use plan_import::{read_extension, read_plan};
use plan_records::{Extension, PlanDraft};
use std::alloc::Global;
use std::fs;
use std::io::Read;
use std::rt::HostRuntime;

/// The plan that the text of a source denotes, if it denotes one.
#[tactic(auto, using(crate::proofs::Statuses::of_the_import))]
pub fn plan_of<R: Read + Drop>(alloc: Global, source: R) -> Result<Option<PlanDraft>, Fault>
    ensures plan { IfOk result (λ found. IfSome (R.remaining source) (λ text. IsPlanOf text found)) }
    ensures fault { IfErr result IsOfSurroundings }
{
    match read_plan(alloc, &mut Watched::new(source)) {
        Ok(found) => Ok(found),
        Err(fault) => Err(Fault::from(fault)),
    }
}

/// The extension that the text of a source denotes, if it denotes one.
#[tactic(auto, using(crate::proofs::Statuses::of_the_import))]
pub fn extension_of<R: Read + Drop>(alloc: Global, source: R) -> Result<Option<Extension>, Fault>
    ensures extension { IfOk result (λ found. IfSome (R.remaining source) (λ text. IsExtensionOf text found)) }
    ensures fault { IfErr result IsOfSurroundings }
{
    match read_extension(alloc, &mut Watched::new(source)) {
        Ok(found) => Ok(found),
        Err(fault) => Err(Fault::from(fault)),
    }
}

/// The whole text of a source.
pub fn text_of<R: Read + Drop>(alloc: Global, source: R) -> Result<Vec<u8>, Fault>
    ensures text { IfOk result (λ found. IfSome (R.remaining source) (λ text. found.items ≡ text)) }
    ensures fault { IfErr result IsOfSurroundings }
{
    let mut text = Vec::new(alloc);
    let mut source = source;
    source.read_to_end(&mut text)?;
    Ok(text)
}

/// The plan that the text of a file denotes, if it denotes one.
pub fn plan_of_file(rt: &HostRuntime, path: &str) -> Result<Option<PlanDraft>, Fault>
    ensures { IfErr result IsOfSurroundings }
{
    plan_of(rt.alloc(), fs::open(rt, path)?)
}

/// The extension that the text of a file denotes, if it denotes one.
pub fn extension_of_file(rt: &HostRuntime, path: &str) -> Result<Option<Extension>, Fault>
    ensures { IfErr result IsOfSurroundings }
{
    extension_of(rt.alloc(), fs::open(rt, path)?)
}

/// The whole text of a file.
pub fn text_of_file(rt: &HostRuntime, path: &str) -> Result<Vec<u8>, Fault>
    ensures { IfErr result IsOfSurroundings }
{
    text_of(rt.alloc(), fs::open(rt, path)?)
}
