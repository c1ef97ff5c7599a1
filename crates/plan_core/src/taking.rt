// A loaded plan into which is written what was prepared.
ghost use Rattle.std.specs.Prelude.{◌≡◌, ℕ, Some};
ghost use Rattle.request_outcomes.specs.Next.{IsNextFor, IsWritingFor, contents_next, rewritten};
ghost use Rattle.plan_model.specs.Plan.{plan_held};
ghost use Rattle.plan_model.specs.Ready.{named as named_in};

use plan_basics::OpKey;
use plan_opening::{LoadedParts, LoadedPlan};
use request_outcomes::{NextPlan, Writing, changed_figures, stepped};

// The plan once this is written into it, and these are named in it. It takes no memory.
fn with_writing(plan: LoadedPlan, writing: Writing, named: &[OpKey]) -> LoadedPlan
    requires { IsWritingFor plan writing named.now }
    ensures { result ≡ named_in named.now (rewritten writing plan) }
{
    let LoadedParts {
        contents,
        graph,
        latest,
        figures,
    } = plan.into_parts();
    let Writing {
        keys,
        revision,
        figure_change,
    } = writing;
    let contents = stepped(contents, &keys, revision, named);
    let figures = changed_figures(figures, figure_change);
    LoadedPlan::of(contents, graph, latest, figures)
}

/// Makes of the plan what a request makes of it, with these named. It takes no memory.
pub fn put(loaded: &mut Option<LoadedPlan>, next: NextPlan, named: &[OpKey])
    requires { (clock : ℕ) × IsNextFor (plan_held clock loaded.old) next named.now }
    ensures { (clock : ℕ) → loaded.new ≡ Some (contents_next (plan_held clock loaded.old).contents next named.now) }
{
    match next {
        NextPlan::Whole(whole) => *loaded = Some(whole),
        NextPlan::Small(writing) => {
            let plan = loaded.take().unwrap();
            *loaded = Some(with_writing(plan, writing, named));
        }
    }
}
