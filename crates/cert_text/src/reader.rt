ghost use Rattle.std.specs.Prelude.{◌≡◌, ◌<◌, ◌≤◌, ◌^◌, ℕ, List, length, IfOk, Ok, Err, None};
ghost use Rattle.std.specs.Option.{ForSome};
ghost use Rattle.line_text.specs.Answers.{GivesText, IsFaultWithin, UnlessMemory, IsSyntax};
ghost use Rattle.line_text.specs.Parts.{rows_of};
ghost use Rattle.line_text.specs.Readings.{rows_left, GoesOn};
ghost use Rattle.line_text.specs.Spans.{stop};
ghost use Rattle.bud_plans.specs.Plans.{HasPlanNumbers};
ghost use Rattle.cert_text.specs.Certs.{plan_in};
ghost use Rattle.cert_text.specs.declared.certs.Cert.{Cert};
ghost use Rattle.cert_text.specs.Texts.{Reads, IsBreached, IsMalformed, IsReadAnswer, HasAtMost};
ghost use Rattle.cert_text.specs.Sizes.{HasFrontAtMost, HasBackAtMost};
ghost use Rattle.cert_text.specs.Reading.{header, front, back, certificate};

use crate::certs::{Cert, CertClasses, CertFlows, CertItems, CertNodes};
use crate::lines::{
    ClassLine, EndLine, ItemLine, NodeLine, PolicyLine, StartLine, Version, WeightLine,
};
use bud_base::TextFault;
use line_text::{Reading, next_line, owned_section, text_end};
use std::alloc::Global;

/// A certificate up to its items.
#[derive(Drop)]
struct Front {
    policy: u32,
    classes: CertClasses,
    nodes: CertNodes,
    items: CertItems,
}

/// A certificate from its starts on.
#[derive(Drop)]
struct Back {
    starts: CertFlows,
    ends: CertFlows,
    weight: i128,
}

/// Reads the version, which from 2 on is that of the policy too.
#[tactic(auto, unfolding(crate::specs::Reading::header, crate::specs::Reading::policy_line))]
fn read_header(text: Reading<'_>) -> Result<(u32, Reading<'_>), TextFault>
    ensures read { GivesText (λ r. (r.0, rows_left r.1)) result (header (rows_left text.entry)) }
    ensures within { IfOk result (λ r. GoesOn text.entry r.1) }
    ensures fault { IsFaultWithin (stop text.entry.rest) result }
{
    let (version, text) = next_line::<Version>(text)?;
    if version != 2 {
        return Ok((version, text));
    }
    let ((), text) = next_line::<PolicyLine>(text)?;
    Ok((version, text))
}

/// Reads up to the items.
#[tactic(auto, unfolding(crate::specs::Reading::front))]
fn read_front(alloc: Global, text: Reading<'_>) -> Result<(Front, Reading<'_>), TextFault>
    ensures read { GivesText (λ r. (r.0, rows_left r.1)) result (front (rows_left text.entry)) }
    ensures within { IfOk result (λ r. GoesOn text.entry r.1) }
    ensures fault { IsFaultWithin (stop text.entry.rest) result }
    ensures size { IfOk result (λ r. HasFrontAtMost (length text.entry.rest.bytes.now) r.0) }
{
    let (policy, text) = read_header(text)?;
    let (classes, text) = owned_section::<ClassLine>(alloc, text)?;
    let (nodes, text) = owned_section::<NodeLine>(alloc, text)?;
    let (items, text) = owned_section::<ItemLine>(alloc, text)?;
    let front = Front {
        policy,
        classes: CertClasses::from_vec(classes),
        nodes: CertNodes::from_vec(nodes),
        items: CertItems::from_vec(items),
    };
    Ok((front, text))
}

/// Reads from the starts on.
#[tactic(auto, unfolding(crate::specs::Reading::back))]
fn read_back(alloc: Global, text: Reading<'_>) -> Result<(Back, Option<usize>), TextFault>
    ensures read { GivesText (λ r. r) result (back (rows_left text.entry)) }
    ensures fault { IsFaultWithin (stop text.entry.rest) result }
    ensures breach { IfOk result (λ r. ForSome r.1 (λ at. at ≤ stop text.entry.rest)) }
    ensures size { IfOk result (λ r. HasBackAtMost (length text.entry.rest.bytes.now) r.0) }
{
    let (starts, text) = owned_section::<StartLine>(alloc, text)?;
    let (ends, text) = owned_section::<EndLine>(alloc, text)?;
    let (weight, text) = next_line::<WeightLine>(text)?;
    let breach = text_end(text)?;
    let back = Back {
        starts: CertFlows::from_vec(starts),
        ends: CertFlows::from_vec(ends),
        weight,
    };
    Ok((back, breach))
}

/// The certificate in the loose form, and its least breach.
#[tactic(auto, unfolding(crate::specs::Reading::certificate))]
fn read_loosely(alloc: Global, text: &[u8]) -> Result<(Cert, Option<usize>), TextFault>
    requires { length text.now < 2 ^ 31 }
    ensures read { GivesText (λ r. r) result (certificate (rows_of text.now, None)) }
    ensures within { IsFaultWithin (length text.now) result }
    ensures breach { IfOk result (λ r. ForSome r.1 (λ at. at ≤ length text.now)) }
    ensures size { IfOk result (λ r. HasAtMost (length text.now) r.0) }
{
    let (front, text) = read_front(alloc, Reading::new(text))?;
    let (back, breach) = read_back(alloc, text)?;
    let Front {
        policy,
        classes,
        nodes,
        items,
    } = front;
    let Back {
        starts,
        ends,
        weight,
    } = back;
    let cert = Cert {
        policy,
        classes,
        nodes,
        items,
        starts,
        ends,
        weight,
    };
    Ok((cert, breach))
}

/// The certificate, where all its numbers are in their ranges.
fn read_in_ranges(alloc: Global, text: &[u8]) -> Result<Cert, TextFault>
    requires { length text.now < 2 ^ 31 }
    ensures answer { IsReadAnswer text.now result }
    ensures within { IsFaultWithin (length text.now) result }
    ensures size { IfOk result (HasAtMost (length text.now)) }
{
    let (cert, breach) = read_loosely(alloc, text)?;
    match breach {
        None => Ok(cert),
        Some(at) => Err(TextFault::Value(at)),
    }
}

/// Reads a certificate text: the line `certificate 1`, or `certificate 2` and then `policy 2`, then lines
/// `class K CLOCK EDGE N ..`, where an exception may also be `N:S`, `node NAME K ARRIVAL`, `item FROM TO K BUDGET FLOW`,
/// `start NAME K FLOW` and `end NAME K FLOW`, in this order, and last the line `weight W`. Times are in ps.
///
/// Syntax comes where the text isn't of this form, Value where a number is out of its range, with the offset of the
/// first such number. It takes one pass over the text, and memory for the certificate alone.
pub fn read_cert(alloc: Global, text: &[u8]) -> Result<Cert, TextFault>
    requires { length text.now < 2 ^ 31 }
    // What each answer says of the text.
    ensures answer { IsReadAnswer text.now result }
    // A text in the grammar is read, with its one value.
    ensures reads { (cert : Cert) → Reads text.now cert → UnlessMemory result (result ≡ Ok cert) }
    // One with a number out of its range is refused for it.
    ensures breached { (at : ℕ) → IsBreached text.now at → UnlessMemory result (result ≡ Err (TextFault.Value at)) }
    // One of another form is refused as that.
    ensures malformed { IsMalformed text.now → UnlessMemory result (IsSyntax result) }
    ensures within { IsFaultWithin (length text.now) result }
    ensures size { IfOk result (HasAtMost (length text.now)) }
    // What the checks of certificates ask for.
    ensures numbers { IfOk result (λ cert. HasPlanNumbers (plan_in cert)) }
{
    read_in_ranges(alloc, text)
}

/// A certificate text has at most one value, and at most one least breach.
pub fn one_value()
    ensures value { (text : List ℕ) (p q : Cert) → Reads text p → Reads text q → p ≡ q }
    ensures breach { (text : List ℕ) (a b : ℕ) → IsBreached text a → IsBreached text b → a ≡ b }
    ensures apart { (text : List ℕ) (cert : Cert) (at : ℕ) → Reads text cert → IsBreached text at → ⊥ }
{}
