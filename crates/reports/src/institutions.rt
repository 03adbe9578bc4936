// The table of institutions.
ghost use Rattle.std.specs.Prelude.{◌≡◌, ◌+◌, ◌^◌, List, Some, ◌<◌, ◌≤◌, ℕ, length, slice_index, slice_index_or, [], IfOk, true, IsErrOf};
ghost use Rattle.std.specs.List.Sorted.{IsStrictlySortedBy};
ghost use Rattle.edge_io.specs.Counts.{HasCause};
ghost use Rattle.edge_io.specs.Told.{AddsAll};
ghost use Rattle.match_rules.specs.Answers.{SharesMatch};
ghost use Rattle.match_rules.specs.GroupTable.{texts, HasName};
ghost use Rattle.match_rules.specs.Id.{is_institution};
ghost use Rattle.match_rules.specs.Rules.{id_cmp};
ghost use Rattle.match_rules.specs.Sums.{when};
ghost use Rattle.text_lines.specs.Texts.{line_of};
ghost use Rattle.reports.specs.Faults.{WriteFails};
ghost use Rattle.reports.specs.Institutions.{is_at, institutions, institution_line, institutions_text, sum_at};
ghost use Rattle.reports.specs.Lists.{texts_below};
ghost use Rattle.reports.specs.declared.kinds.ReportFault.TheVariants.{Memory};

use crate::kinds::ReportFault;
use crate::lines::{begun_with_institution, end_line, push_number};
use crate::loads::loads_of;
use crate::names::{institutions, place_of};
use edge_io::{Io, Sink, write_all};
use match_rules::{MOST_REVIEWERS, RuleReviewer, Rules};
use std::alloc::{AllocError, Global};
use text_lines::LineBuffer;

// Adds the load of a reviewer to the sum of the reviewer's institution, where there is one.
fn add_load(names: &[&str], reviewer: &RuleReviewer, load: u64, sums: &mut [u64])
    requires ascending { IsStrictlySortedBy id_cmp (texts names.now) }
    requires there { (name : List ℕ) → reviewer.now.institution ≡ Some name → HasName (texts names.now) name }
    requires size { length sums.old ≡ length names.now }
    requires small { load ≤ 2 ^ 40 }
    requires fits { (i : ℕ) → i < length sums.old → slice_index sums.old i ≤ 2 ^ 60 }
    ensures { (i : ℕ) → i < length sums.new → slice_index sums.new i ≡ slice_index sums.old i + when (is_at (slice_index_or (texts names.now) i []) reviewer.now) load }
{
    if let Some(name) = &reviewer.institution {
        let place = place_of(names, name.text());
        sums[place] += load;
    }
}

// Adds the load of each reviewer to the sum of the institution.
fn add_loads(reviewers: &[RuleReviewer], loads: &[u64], names: &[&str], sums: &mut [u64])
    requires few { length reviewers.now ≤ MOST_REVIEWERS }
    requires loads { length loads.now ≡ length reviewers.now }
    requires small { (r : ℕ) → r < length loads.now → slice_index loads.now r ≤ 2 ^ 40 }
    requires names { texts names.now ≡ institutions reviewers.now }
    requires size { length sums.old ≡ length names.now }
    ensures size { length sums.new ≡ length names.now }
    ensures each { (i : ℕ) → i < length sums.new → slice_index sums.new i ≡ sum_at (slice_index_or (texts names.now) i []) reviewers.now (λ r. slice_index loads.now r) }
{
    sums.fill(0);
    for r in 0..reviewers.len() {
        add_load(names, &reviewers[r], loads[r], sums);
    }
}

// The sums of the loads of each institution's reviewers.
fn sums_of(
    alloc: Global,
    reviewers: &[RuleReviewer],
    loads: &[u64],
    names: &[&str],
) -> Result<Vec<u64>, AllocError>
    requires few { length reviewers.now ≤ MOST_REVIEWERS }
    requires loads { length loads.now ≡ length reviewers.now }
    requires small { (r : ℕ) → r < length loads.now → slice_index loads.now r ≤ 2 ^ 40 }
    requires names { texts names.now ≡ institutions reviewers.now }
    ensures size { IfOk result (λ sums. length sums.items ≡ length names.now) }
    ensures each { IfOk result (λ sums. (i : ℕ) → i < length sums.items → slice_index sums.items i ≡ sum_at (slice_index_or (texts names.now) i []) reviewers.now (λ r. slice_index loads.now r)) }
{
    let mut sums = vec![in alloc; 0u64; names.len()]?;
    add_loads(reviewers, loads, names, sums.as_mut_slice());
    Ok(sums)
}

fn institution_line(name: &str, tickets: u64) -> LineBuffer
    requires { is_institution name.now ≡ true }
    ensures { result ≡ line_of (institution_line name.now tickets) }
{
    let mut line = begun_with_institution(name);
    push_number(&mut line, tickets);
    end_line(&mut line);
    line
}

// The line of an institution.
fn write_institution<K: Sink>(name: &str, tickets: u64, sink: &mut K) -> Result<(), Io>
    requires { is_institution name.now ≡ true }
    ensures taken { AddsAll (K.taken sink.old) (K.taken sink.new) result (line_of (institution_line name.now tickets)) }
    ensures cause { HasCause (K.faults sink.old) (K.faults sink.new) result }
{
    write_all(sink, institution_line(name, tickets).as_slice())
}

fn write_institution_lines<K: Sink>(names: &[&str], sums: &[u64], sink: &mut K) -> Result<(), Io>
    requires sums { length sums.now ≡ length names.now }
    requires names { (i : ℕ) → i < length names.now → is_institution (slice_index_or (texts names.now) i []) ≡ true }
    ensures taken { AddsAll (K.taken sink.old) (K.taken sink.new) result (texts_below (length names.now) (λ i. line_of (institution_line (slice_index_or (texts names.now) i []) (slice_index sums.now i)))) }
    ensures cause { HasCause (K.faults sink.old) (K.faults sink.new) result }
{
    for i in 0..names.len() {
        write_institution(names[i], sums[i], sink)?;
    }
    Ok(())
}

/// Appends the table of institutions.
pub(crate) fn write_institutions<K: Sink>(
    alloc: Global,
    rules: &Rules,
    shares: &[u32],
    sink: &mut K,
) -> Result<(), ReportFault>
    requires { SharesMatch rules.now shares.now }
    ensures taken { AddsAll (K.taken sink.old) (K.taken sink.new) result (institutions_text rules.now shares.now) }
    ensures cause { WriteFails (K.faults sink.old) (K.faults sink.new) result }
    ensures quiet { IsErrOf result Memory → K.taken sink.new ≡ K.taken sink.old }
{
    let loads = loads_of(alloc, rules, shares)?;
    let names = institutions(alloc, rules.reviewers())?;
    let sums = sums_of(alloc, rules.reviewers(), loads.as_slice(), names.as_slice())?;
    write_all(sink, b"institution,tickets\n")?;
    write_institution_lines(names.as_slice(), sums.as_slice(), sink)?;
    Ok(())
}
