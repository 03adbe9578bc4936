// Whether the lists and numbers of an answer are of the sizes of rules.

ghost use Rattle.std.specs.Prelude.{◌≡◌, ◌↔◌, ◌<◌, ◌≤◌, All, IsTrue, length};
ghost use Rattle.match_rules.specs.Answers.{IsWithin, most_price, ArePrices, AreMarks, CutMatches, LevelMatches, SharesMatch, LotteryMatches, PricesMatch, WinningMatches, AnswerMatches};

use crate::answer::{Answer, Cut, Level, MOST_PRICE, MOST_TOTAL, Prices, Winning};
use crate::lists::{Places, PriceList, Shares};
use crate::lottery::{Lottery, Piece};
use crate::magnitudes::is_within;
use crate::rules::{MOST_SCORE, Rules};

fn are_marks(count: u32, places: &Places) -> bool
    ensures { IsTrue result ↔ AreMarks count places.now }
{
    if !places.are_below(count) {
        return false;
    }
    places.do_ascend()
}

fn cut_matches(rules: &Rules, cut: &Cut) -> bool
    ensures { IsTrue result ↔ CutMatches rules.now cut.now }
{
    if !are_marks(rules.papers().len() as u32, &cut.papers) {
        return false;
    }
    if !are_marks(rules.group_count(), &cut.groups) {
        return false;
    }
    are_marks(rules.reviewers().len() as u32, &cut.reviewers)
}

fn level_matches(rules: &Rules, level: &Level) -> bool
    ensures { IsTrue result ↔ LevelMatches rules.now level.now }
{
    match level {
        Level::Unasked => true,
        Level::Free => true,
        Level::At { score, cut } => {
            if !is_within(MOST_SCORE, i128::from(*score)) {
                return false;
            }
            cut_matches(rules, cut)
        }
    }
}

fn is_each_price(prices: &[i64]) -> bool
    ensures { IsTrue result ↔ All (IsWithin most_price) prices.now }
{
    prices
        .iter()
        .all(|price| is_within(MOST_PRICE, i128::from(*price)))
}

fn are_prices(count: usize, prices: &PriceList) -> bool
    ensures { IsTrue result ↔ ArePrices count prices.now }
{
    let prices = prices.as_slice();
    if prices.len() != count {
        return false;
    }
    is_each_price(prices)
}

fn prices_match(rules: &Rules, prices: &Prices) -> bool
    ensures { IsTrue result ↔ PricesMatch rules.now prices.now }
{
    if !are_prices(rules.papers().len(), &prices.papers) {
        return false;
    }
    if !are_prices(rules.group_count() as usize, &prices.groups) {
        return false;
    }
    are_prices(rules.reviewers().len(), &prices.reviewers)
}

fn is_each_share(tickets: u32, shares: &[u32]) -> bool
    ensures { IsTrue result ↔ All (λ share. share ≤ tickets) shares.now }
{
    shares.iter().all(|share| *share <= tickets)
}

fn shares_match(rules: &Rules, shares: &Shares) -> bool
    ensures { IsTrue result ↔ SharesMatch rules.now shares.now }
{
    let shares = shares.as_slice();
    if shares.len() != rules.pairs().len() {
        return false;
    }
    is_each_share(rules.tickets(), shares)
}

fn have_places_below(count: u32, pieces: &[Piece]) -> bool
    ensures { IsTrue result ↔ All (λ piece. All (λ e. e < count) piece.pairs) pieces.now }
{
    pieces.iter().all(|piece| piece.pairs.are_below(count))
}

fn lottery_matches(rules: &Rules, lottery: &Lottery) -> bool
    ensures { IsTrue result ↔ LotteryMatches rules.now lottery.now }
{
    have_places_below(rules.pairs().len() as u32, lottery.pieces())
}

fn winning_matches(rules: &Rules, winning: &Winning) -> bool
    ensures { IsTrue result ↔ WinningMatches rules.now winning.now }
{
    if !level_matches(rules, &winning.level) {
        return false;
    }
    if !is_within(MOST_TOTAL, winning.total) {
        return false;
    }
    if !prices_match(rules, &winning.prices) {
        return false;
    }
    if !shares_match(rules, &winning.shares) {
        return false;
    }
    lottery_matches(rules, &winning.lottery)
}

/// Whether all lists of an answer have the lengths that the rules ask for, its places are places of the rules, and its
/// numbers are within their limits.
pub fn matches(rules: &Rules, answer: &Answer) -> bool
    ensures { IsTrue result ↔ AnswerMatches rules.now answer.now }
{
    match answer {
        Answer::Lottery(winning) => winning_matches(rules, winning),
        Answer::Infeasible(blocked) => cut_matches(rules, &blocked.cut),
    }
}
