// A request, when it is made, and of which plan.
use plan_basics::Moment;
use plan_records::Request;

/// A request that is made of a plan: the clock of the plan, and the moment of the request.
#[derive(Clone, Copy)]
pub struct DatedRequest<'a> {
    pub clock: Moment,
    pub request: &'a Request,
    pub at: Moment,
}
