// Reading the text of a lottery, behind its first line, for the rules that it answers.
ghost use Rattle.std.specs.Prelude.{◌≡◌, ◌≤◌, IsSome, IfOk, List, ℤ, Result, Ok, codes, length};
ghost use Rattle.edge_io.specs.Told.{told, TellsNoMore};
ghost use Rattle.match_rules.specs.Answers.{ArePrices, IsWithin, SuitsMode, most_total};
ghost use Rattle.match_rules.specs.Rules.{most_score};
ghost use Rattle.text_lines.specs.Forms.{section_at};
ghost use Rattle.text_lines.specs.Reading.{Gives, FaultHasCause, cursor, due};
ghost use Rattle.publication.specs.AnswerForms.{share_of};
ghost use Rattle.publication.specs.AnswerReading.{asked_at, price_list_at, prices_at, no_cut_at, cut_level_at, level_at, dealt_at, pieces_at, worth_at, lottery_with, lottery_at};
ghost use Rattle.publication.specs.AskedForms.{IsAsked, mode_of_level, threshold_of};
ghost use Rattle.publication.specs.Certificates.{ArePricesFor, AreShares, AreSharesFor, ArePiecesFor, IsLotteryFor, LevelFits};

use crate::answer_forms::{PriceLine, ShareLine, TotalLine};
use crate::asked_forms::{Asked, ModeLine, ThresholdLine, mode_of_level};
use crate::infeasible_text::read_cut;
use crate::pieces::PieceLine;
use edge_io::Source;
use match_rules::{
    Level, Lottery, MOST_PAIRS, MOST_TICKETS, Mode, PriceList, Prices, Shares, Sizes, Winning,
};
use std::alloc::Global;
use text_lines::{Lines, ReadError, read_line, read_section, read_words};

// The total of a lottery, and its prices.
#[derive(Drop)]
struct Worth {
    total: i64,
    prices: Prices,
}

// The shares, and the level of the threshold.
#[derive(Drop)]
struct Dealt {
    shares: Shares,
    level: Level,
}

fn read_threshold<S: Source>(
    alloc: Global,
    lines: &mut Lines,
    source: &mut S,
    mode: Mode,
) -> Result<Asked, ReadError>
    ensures reads { IsSome (S.left source.new) → Gives (λ asked. asked) result (cursor lines.new (S.left source.new)) (due (threshold_of mode) (cursor lines.old (S.left source.old))) }
    ensures fits { IfOk result IsAsked }
    ensures untold { TellsNoMore (S.left source.old) (S.left source.new) }
    ensures cause { FaultHasCause (S.faults source.old) (S.faults source.new) (S.left source.new) result }
{
    read_line(alloc, lines, source, &mut ThresholdLine { mode }, &[])
}

#[tactic(auto, unfolding(crate::specs::AnswerReading::asked_at))]
fn read_asked<S: Source>(
    alloc: Global,
    lines: &mut Lines,
    source: &mut S,
) -> Result<Asked, ReadError>
    ensures reads { IsSome (S.left source.new) → Gives (λ asked. asked) result (cursor lines.new (S.left source.new)) (asked_at (cursor lines.old (S.left source.old))) }
    ensures fits { IfOk result IsAsked }
    ensures untold { TellsNoMore (S.left source.old) (S.left source.new) }
    ensures cause { FaultHasCause (S.faults source.old) (S.faults source.new) (S.left source.new) result }
{
    let mode = read_line(alloc, lines, source, &mut ModeLine {}, &[])?;
    read_threshold(alloc, lines, source, mode)
}

#[tactic(auto, unfolding(crate::specs::AnswerReading::price_list_at))]
fn read_price_list<S: Source>(
    alloc: Global,
    lines: &mut Lines,
    source: &mut S,
    word: &str,
    count: u32,
) -> Result<PriceList, ReadError>
    ensures reads { IsSome (S.left source.new) → Gives (λ prices. prices) result (cursor lines.new (S.left source.new)) (price_list_at word.now count (cursor lines.old (S.left source.old))) }
    ensures fits { IfOk result (ArePrices count) }
    ensures untold { TellsNoMore (S.left source.old) (S.left source.new) }
    ensures cause { FaultHasCause (S.faults source.old) (S.faults source.new) (S.left source.new) result }
{
    let prices = read_section(alloc, lines, source, word, count, count, &mut PriceLine {})?;
    Ok(PriceList::from_vec(prices))
}

#[tactic(auto, unfolding(crate::specs::AnswerReading::prices_at))]
fn read_prices<S: Source>(
    alloc: Global,
    lines: &mut Lines,
    source: &mut S,
    sizes: Sizes,
) -> Result<Prices, ReadError>
    ensures reads { IsSome (S.left source.new) → Gives (λ prices. prices) result (cursor lines.new (S.left source.new)) (prices_at sizes (cursor lines.old (S.left source.old))) }
    ensures fits { IfOk result (ArePricesFor sizes) }
    ensures untold { TellsNoMore (S.left source.old) (S.left source.new) }
    ensures cause { FaultHasCause (S.faults source.old) (S.faults source.new) (S.left source.new) result }
{
    let papers = read_price_list(alloc, lines, source, "paper-prices", sizes.papers)?;
    let groups = read_price_list(alloc, lines, source, "group-prices", sizes.groups)?;
    let reviewers = read_price_list(alloc, lines, source, "reviewer-prices", sizes.reviewers)?;
    Ok(Prices {
        papers,
        groups,
        reviewers,
    })
}

fn read_shares<S: Source>(
    alloc: Global,
    lines: &mut Lines,
    source: &mut S,
    count: u32,
) -> Result<Shares, ReadError>
    ensures reads { IsSome (S.left source.new) → Gives (λ shares. shares) result (cursor lines.new (S.left source.new)) (section_at (codes "shares") count count (λ before. share_of) (cursor lines.old (S.left source.old))) }
    ensures fits { IfOk result (AreShares count) }
    ensures untold { TellsNoMore (S.left source.old) (S.left source.new) }
    ensures cause { FaultHasCause (S.faults source.old) (S.faults source.new) (S.left source.new) result }
{
    let shares = read_section(
        alloc,
        lines,
        source,
        "shares",
        count,
        count,
        &mut ShareLine {},
    )?;
    Ok(Shares::from_vec(shares))
}

// That a level without a score has no cut.
fn read_no_cut<S: Source>(
    alloc: Global,
    lines: &mut Lines,
    source: &mut S,
    level: Level,
) -> Result<Level, ReadError>
    ensures reads { IsSome (S.left source.new) → Gives (λ found. found) result (cursor lines.new (S.left source.new)) (no_cut_at level (cursor lines.old (S.left source.old))) }
    ensures same { IfOk result (λ found. found ≡ level) }
    ensures untold { TellsNoMore (S.left source.old) (S.left source.new) }
    ensures cause { FaultHasCause (S.faults source.old) (S.faults source.new) (S.left source.new) result }
{
    read_words(alloc, lines, source, "cut none")?;
    Ok(level)
}

// The cut of a level with a score.
fn read_level_at<S: Source>(
    alloc: Global,
    lines: &mut Lines,
    source: &mut S,
    sizes: Sizes,
    score: i64,
) -> Result<Level, ReadError>
    requires { IsWithin most_score score }
    ensures reads { IsSome (S.left source.new) → Gives (λ level. level) result (cursor lines.new (S.left source.new)) (cut_level_at sizes score (cursor lines.old (S.left source.old))) }
    ensures fits { IfOk result (LevelFits sizes) }
    ensures untold { TellsNoMore (S.left source.old) (S.left source.new) }
    ensures cause { FaultHasCause (S.faults source.old) (S.faults source.new) (S.left source.new) result }
{
    let cut = read_cut(alloc, lines, source, sizes)?;
    Ok(Level::At { score, cut })
}

// The level of a threshold.
fn read_level<S: Source>(
    alloc: Global,
    lines: &mut Lines,
    source: &mut S,
    sizes: Sizes,
    asked: Asked,
) -> Result<Level, ReadError>
    requires { IsAsked asked }
    ensures reads { IsSome (S.left source.new) → Gives (λ level. level) result (cursor lines.new (S.left source.new)) (level_at sizes asked (cursor lines.old (S.left source.old))) }
    ensures fits { IfOk result (LevelFits sizes) }
    ensures untold { TellsNoMore (S.left source.old) (S.left source.new) }
    ensures cause { FaultHasCause (S.faults source.old) (S.faults source.new) (S.left source.new) result }
{
    match asked {
        Asked::Whole => read_no_cut(alloc, lines, source, Level::Unasked),
        Asked::Free => read_no_cut(alloc, lines, source, Level::Free),
        Asked::At { score } => read_level_at(alloc, lines, source, sizes, score),
    }
}

#[tactic(auto, unfolding(crate::specs::AnswerReading::dealt_at))]
fn read_dealt<S: Source>(
    alloc: Global,
    lines: &mut Lines,
    source: &mut S,
    sizes: Sizes,
    asked: Asked,
) -> Result<Dealt, ReadError>
    requires { IsAsked asked }
    ensures reads { IsSome (S.left source.new) → Gives (λ dealt. (dealt.shares, dealt.level)) result (cursor lines.new (S.left source.new)) (dealt_at sizes asked (cursor lines.old (S.left source.old))) }
    ensures shares { IfOk result (λ dealt. AreSharesFor sizes dealt.shares) }
    ensures level { IfOk result (λ dealt. LevelFits sizes dealt.level) }
    ensures untold { TellsNoMore (S.left source.old) (S.left source.new) }
    ensures cause { FaultHasCause (S.faults source.old) (S.faults source.new) (S.left source.new) result }
{
    let shares = read_shares(alloc, lines, source, sizes.pairs)?;
    let level = read_level(alloc, lines, source, sizes, asked)?;
    Ok(Dealt { shares, level })
}

#[tactic(auto, unfolding(crate::specs::AnswerReading::pieces_at))]
fn read_pieces<S: Source>(
    alloc: Global,
    lines: &mut Lines,
    source: &mut S,
    sizes: Sizes,
) -> Result<Lottery, ReadError>
    requires { sizes.pairs ≤ MOST_PAIRS }
    ensures reads { IsSome (S.left source.new) → Gives (λ lottery. lottery) result (cursor lines.new (S.left source.new)) (pieces_at sizes (cursor lines.old (S.left source.old))) }
    ensures fits { IfOk result (ArePiecesFor sizes) }
    ensures untold { TellsNoMore (S.left source.old) (S.left source.new) }
    ensures cause { FaultHasCause (S.faults source.old) (S.faults source.new) (S.left source.new) result }
{
    let mut form = PieceLine { pairs: sizes.pairs };
    let pieces = read_section(alloc, lines, source, "pieces", 0, MOST_TICKETS, &mut form)?;
    read_words(alloc, lines, source, "end lottery")?;
    Ok(Lottery::of_tested(pieces))
}

// The total and the prices.
#[tactic(auto, unfolding(crate::specs::AnswerReading::worth_at))]
fn read_worth<S: Source>(
    alloc: Global,
    lines: &mut Lines,
    source: &mut S,
    sizes: Sizes,
) -> Result<Worth, ReadError>
    ensures reads { IsSome (S.left source.new) → Gives (λ worth. (worth.total, worth.prices)) result (cursor lines.new (S.left source.new)) (worth_at sizes (cursor lines.old (S.left source.old))) }
    ensures total { IfOk result (λ worth. IsWithin most_total worth.total) }
    ensures prices { IfOk result (λ worth. ArePricesFor sizes worth.prices) }
    ensures untold { TellsNoMore (S.left source.old) (S.left source.new) }
    ensures cause { FaultHasCause (S.faults source.old) (S.faults source.new) (S.left source.new) result }
{
    let total = read_line(alloc, lines, source, &mut TotalLine {}, &[])?;
    let prices = read_prices(alloc, lines, source, sizes)?;
    Ok(Worth { total, prices })
}

// The lottery with this threshold.
#[tactic(auto, unfolding(crate::specs::AnswerReading::lottery_with))]
fn read_lottery_with<S: Source>(
    alloc: Global,
    lines: &mut Lines,
    source: &mut S,
    sizes: Sizes,
    asked: Asked,
) -> Result<Winning, ReadError>
    requires asked { IsAsked asked }
    requires few { sizes.pairs ≤ MOST_PAIRS }
    ensures reads { IsSome (S.left source.new) → Gives (λ winning. winning) result (cursor lines.new (S.left source.new)) (lottery_with sizes asked (cursor lines.old (S.left source.old))) }
    ensures mode { IfOk result (λ winning. winning.mode ≡ mode_of_level winning.level) }
    ensures fits { IfOk result (IsLotteryFor sizes) }
    ensures untold { TellsNoMore (S.left source.old) (S.left source.new) }
    ensures cause { FaultHasCause (S.faults source.old) (S.faults source.new) (S.left source.new) result }
{
    let worth = read_worth(alloc, lines, source, sizes)?;
    let dealt = read_dealt(alloc, lines, source, sizes, asked)?;
    let lottery = read_pieces(alloc, lines, source, sizes)?;
    Ok(Winning {
        mode: mode_of_level(&dealt.level),
        level: dealt.level,
        total: i128::from(worth.total),
        prices: worth.prices,
        shares: dealt.shares,
        lottery,
    })
}

/// Reads the text of a lottery, behind its first line, for the rules that it answers.
#[tactic(auto, unfolding(crate::specs::AnswerReading::lottery_at))]
pub fn read_lottery<S: Source>(
    alloc: Global,
    lines: &mut Lines,
    source: &mut S,
    sizes: Sizes,
) -> Result<Winning, ReadError>
    requires { sizes.pairs ≤ MOST_PAIRS }
    ensures reads { IsSome (S.left source.new) → Gives (λ winning. winning) result (cursor lines.new (S.left source.new)) (lottery_at sizes (cursor lines.old (S.left source.old))) }
    ensures suits { IfOk result (λ winning. SuitsMode winning.mode winning.level) }
    ensures fits { IfOk result (IsLotteryFor sizes) }
    ensures untold { TellsNoMore (S.left source.old) (S.left source.new) }
    ensures cause { FaultHasCause (S.faults source.old) (S.faults source.new) (S.left source.new) result }
{
    let asked = read_asked(alloc, lines, source)?;
    read_lottery_with(alloc, lines, source, sizes, asked)
}
