// The text of a verdict and of its alarms.
ghost use Rattle.std.specs.Prelude.{◌≡◌, ◌++◌, ◌+◌, ◌≤◌, ◌<◌, length};
ghost use Rattle.rangecheck.specs.Print.{trade_word, line_of, accepted_text, refused_text};

use crate::text::Text;
use words::{Refusal, Rule, number_at};

// A rule's word, at most 7 bytes.
#[tactic(auto, unfolding(crate::specs::Print::trade_word))]
fn word_of(rule: Rule) -> &'static [u8]
    ensures text { result.now ≡ trade_word rule }
    ensures few { length result.now ≤ 7 }
{
    match rule {
        Rule::Length => b"length",
        Rule::Size => b"size",
        Rule::Share => b"share",
        Rule::Node => b"node",
        Rule::Point => b"point",
        Rule::Use => b"use",
        Rule::Reach => b"reach",
        Rule::Match => b"match",
        Rule::Range => b"range",
        Rule::Order => b"order",
        Rule::Start => b"start",
        Rule::Locks => b"locks",
        Rule::Flow => b"flow",
        Rule::Write => b"write",
        Rule::Disturb => b"disturb",
        Rule::Rest => b"rest",
        Rule::Room => b"room",
        Rule::Walks => b"walks",
        Rule::Rise => b"rise",
        Rule::Space => b"space",
        Rule::Short => b"short",
    }
}

// Puts the line of alarm k, at most 35 bytes.
#[tactic(auto, unfolding(crate::specs::Print::pick, crate::specs::Print::kind_text, crate::specs::Print::line_of))]
fn put_alarm(text: &mut Text, alarms: &[i32], k: usize)
    requires { (length text.old + 35 ≤ 72000) × (k < 2048) }
    ensures text { text.new ≡ text.old ++ line_of alarms.now k }
    ensures few { length text.new ≤ length text.old + 35 }
{
    text.put(b"node ");
    text.put_decimal(number_at(alarms, 2 * k) as u64);
    if number_at(alarms, 2 * k + 1) == 1 {
        text.put(b" overflow\n");
    } else {
        text.put(b" zero\n");
    }
}

// Makes the text the lines of an accepted check with n alarms.
#[tactic(auto, unfolding(crate::specs::Print::lines_of, crate::specs::Print::accepted_text))]
pub(crate) fn put_accepted(text: &mut Text, alarms: &[i32], n: usize)
    requires { n ≤ 2048 }
    ensures { text.new ≡ accepted_text alarms.now n }
{
    text.set(b"accepted ");
    text.put_decimal(n as u64);
    text.put(b"\n");
    for k in 0..n {
        put_alarm(text, alarms, k);
    }
}

// Makes the text the line of a refusal.
#[tactic(auto, unfolding(crate::specs::Print::refused_text))]
pub(crate) fn put_refused(text: &mut Text, refusal: Refusal)
    ensures { text.new ≡ refused_text refusal.rule refusal.place }
{
    text.set(b"refused ");
    text.put_decimal(u64::from(refusal.rule.number()));
    text.put(b" ");
    text.put(word_of(refusal.rule));
    text.put(b" at ");
    text.put_decimal(refusal.place as u64);
    text.put(b"\n");
}
