ghost use Rattle.std.specs.Prelude.{◌≡◌, Some, None, IfSome, MatchOption, map, string_bytes};
ghost use Rattle.std.specs.Option.{option_map};
ghost use Rattle.budget_top.specs.Words.{job_of, raw_of, prove_of, least_of, plan_names, make_of, names_in, asked, IsAskable};

use budget_makes::{gates_of, number_of};

/// What the words of the command line ask for.
#[derive(Clone, Copy)]
pub enum Job<'a> {
    /// `raw P`: the least slack of a problem text, or a worst violated path.
    Raw(&'a str),
    /// `prove P CERT`: checks a certificate of a raw problem.
    Prove(&'a str, &'a str),
    /// `least V SDF SDC`: the least slack of a design, or a worst violated path.
    Least(&'a str, &'a str, &'a str),
    /// `plan V SDF SDC POLICY CERT`: best budgets of a design, with their certificate.
    Plan(PlanFiles<'a>),
    /// `check V SDF SDC POLICY CERT`: checks a certificate of a design.
    Check(PlanFiles<'a>),
    /// `make GATES NUMBER`: budgets of a design of 1 to 20,000 gates, which is told by a number below 2^31.
    Make(u32, u32),
}

/// The names of the files of a design, its policy and its certificate.
#[derive(Clone, Copy)]
pub struct PlanFiles<'a> {
    pub netlist: &'a str,
    pub delays: &'a str,
    pub constraints: &'a str,
    pub policy: &'a str,
    pub cert: &'a str,
}

/// The job of the words behind the program's name, where they fit one.
pub fn asked_job(words: &[String]) -> Option<Job<'_>>
    ensures job { MatchOption result (job_of (map string_bytes words.now) ≡ None) (λ job. job_of (map string_bytes words.now) ≡ Some (asked job)) }
    ensures askable { IfSome result IsAskable }
{
    let [word, names @ ..] = words else {
        return None;
    };
    if word.as_bytes() == b"raw".as_slice() {
        raw(names)
    } else if word.as_bytes() == b"prove".as_slice() {
        prove(names)
    } else if word.as_bytes() == b"least".as_slice() {
        least(names)
    } else if word.as_bytes() == b"plan".as_slice() {
        let files = plan_files(names)?;
        Some(Job::Plan(files))
    } else if word.as_bytes() == b"check".as_slice() {
        let files = plan_files(names)?;
        Some(Job::Check(files))
    } else if word.as_bytes() == b"make".as_slice() {
        make(names)
    } else {
        None
    }
}

fn raw(names: &[String]) -> Option<Job<'_>>
    ensures askable { IfSome result IsAskable }
    ensures job { MatchOption result (raw_of (map string_bytes names.now) ≡ None) (λ job. raw_of (map string_bytes names.now) ≡ Some (asked job)) }
{
    match names {
        [problem] => Some(Job::Raw(problem.as_str())),
        _ => None,
    }
}

fn prove(names: &[String]) -> Option<Job<'_>>
    ensures askable { IfSome result IsAskable }
    ensures job { MatchOption result (prove_of (map string_bytes names.now) ≡ None) (λ job. prove_of (map string_bytes names.now) ≡ Some (asked job)) }
{
    match names {
        [problem, cert] => Some(Job::Prove(problem.as_str(), cert.as_str())),
        _ => None,
    }
}

fn least(names: &[String]) -> Option<Job<'_>>
    ensures askable { IfSome result IsAskable }
    ensures job { MatchOption result (least_of (map string_bytes names.now) ≡ None) (λ job. least_of (map string_bytes names.now) ≡ Some (asked job)) }
{
    match names {
        [netlist, delays, constraints] => Some(Job::Least(
            netlist.as_str(),
            delays.as_str(),
            constraints.as_str(),
        )),
        _ => None,
    }
}

fn plan_files(names: &[String]) -> Option<PlanFiles<'_>>
    ensures { option_map (λ files. names_in files) result ≡ plan_names (map string_bytes names.now) }
{
    match names {
        [netlist, delays, constraints, policy, cert] => Some(PlanFiles {
            netlist: netlist.as_str(),
            delays: delays.as_str(),
            constraints: constraints.as_str(),
            policy: policy.as_str(),
            cert: cert.as_str(),
        }),
        _ => None,
    }
}

fn make(names: &[String]) -> Option<Job<'_>>
    ensures askable { IfSome result IsAskable }
    ensures job { MatchOption result (make_of (map string_bytes names.now) ≡ None) (λ job. make_of (map string_bytes names.now) ≡ Some (asked job)) }
{
    let [gates, number] = names else {
        return None;
    };
    let gates = gates_of(gates.as_str())?;
    let number = number_of(number.as_str())?;
    Some(Job::Make(gates, number))
}
