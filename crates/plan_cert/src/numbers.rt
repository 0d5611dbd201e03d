ghost use Rattle.std.specs.Prelude.{◌≡◌, ◌<◌, length};
ghost use Rattle.bud_flow.specs.Sums.{number_at};
ghost use Rattle.bud_plans.specs.Plans.{IsPlanNumber, HasPlanNumbers};
ghost use Rattle.cert_text.specs.Certs.{plan_in};

use cert_text::Cert;

// The budget in the line of this number.
pub fn budget_at(cert: &Cert, i: usize) -> i64
    requires within { i < length cert.now.items }
    requires numbers { HasPlanNumbers (plan_in cert.now) }
    ensures value { result ≡ number_at (plan_in cert.now).budgets i }
    ensures range { IsPlanNumber result }
{
    let line = &cert.items.as_slice()[i];
    line.budget
}

// The arrival in the line of this number.
pub fn arrival_at(cert: &Cert, k: usize) -> i64
    requires within { k < length cert.now.nodes }
    requires numbers { HasPlanNumbers (plan_in cert.now) }
    ensures value { result ≡ number_at (plan_in cert.now).arrivals k }
    ensures range { IsPlanNumber result }
{
    let line = &cert.nodes.as_slice()[k];
    line.arrival
}

// The flow in the line of this number.
pub fn item_flow_at(cert: &Cert, i: usize) -> i64
    requires within { i < length cert.now.items }
    requires numbers { HasPlanNumbers (plan_in cert.now) }
    ensures value { result ≡ number_at (plan_in cert.now).flow i }
    ensures range { IsPlanNumber result }
{
    let line = &cert.items.as_slice()[i];
    line.flow
}

// The flow in the line of this number.
pub fn start_flow_at(cert: &Cert, s: usize) -> i64
    requires within { s < length cert.now.starts }
    requires numbers { HasPlanNumbers (plan_in cert.now) }
    ensures value { result ≡ number_at (plan_in cert.now).start_flow s }
    ensures range { IsPlanNumber result }
{
    let line = &cert.starts.as_slice()[s];
    line.flow
}

// The flow in the line of this number.
pub fn end_flow_at(cert: &Cert, e: usize) -> i64
    requires within { e < length cert.now.ends }
    requires numbers { HasPlanNumbers (plan_in cert.now) }
    ensures value { result ≡ number_at (plan_in cert.now).end_flow e }
    ensures range { IsPlanNumber result }
{
    let line = &cert.ends.as_slice()[e];
    line.flow
}
