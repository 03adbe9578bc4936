// Certificates: read, written and checked where memory is ample, and refused for a line of an id.
use edge_io::{SureSink, SureSource};
use match_rules::{Rules, Scratch, matches};
use publication::{
    Certificate, ReadRefusal, check, read_answer, read_certificate, read_rules, write_rules,
};
use std::alloc::{AllocError, Global};
use std::test::Fail;
use text_lines::LineCode;

// Two papers and two reviewers, of whom r2 has an institution.
const RULES: &str =
    "rules 1\ntickets 10000\nlimit 1500\npapers 2\np1 1\np2 1\nreviewers 2\nr1 0 1\nr2 0 1 u\npairs 4\n0 0 1000000 0 7000\n0 1 0 0 7000\n1 0 800000 0 7000\n1 1 500000 0 7000\nend rules\n";

const LOTTERY: &str =
    "lottery 1\nmode whole\nthreshold none\ntotal 12900000000\npaper-prices 2\n0\n500000\ngroup-prices 2\n0\n0\nreviewer-prices 2\n300000\n0\nshares 4\n7000\n3000\n3000\n7000\ncut none\npieces 2\n7000 0 3\n3000 1 2\nend lottery\n";

// One paper that needs two reviewers, of an institution of which it may have one.
const BLOCKED_RULES: &str =
    "rules 1\ntickets 10000\nlimit 1\npapers 1\np1 2\nreviewers 2\nr1 0 1 u\nr2 0 1 u\npairs 2\n0 0 1000000 0 10000\n0 1 0 0 10000\nend rules\n";

const CUT: &str =
    "infeasible 1\nmode whole\ncut into\nmarked-papers 0\nmarked-groups\nmarked-reviewers\nneed 20000\nroom 10000\nend infeasible\n";

fn read(
    alloc: Global,
    rules: &str,
    answer: &str,
) -> Result<Result<Certificate, ReadRefusal>, AllocError> {
    let mut bytes = Vec::from_slice(alloc, rules.as_bytes())?;
    bytes.extend_from_slice(answer.as_bytes())?;
    Ok(read_certificate(alloc, &mut SureSource::new(bytes)))
}

// Whether the text of these rules and this answer is read, and the answer is valid.
fn is_valid(alloc: Global, rules: &str, answer: &str) -> Result<bool, AllocError> {
    let Ok(Certificate { rules, answer }) = read(alloc, rules, answer)? else {
        return Ok(false);
    };
    let mut scratch = Scratch::new(alloc, &rules)?;
    Ok(matches(&rules, &answer) && check(&rules, &answer, &mut scratch).is_none())
}

#[test]
fn a_lottery_and_a_cut_are_valid(rt: HostRuntime) -> Result<(), Fail> {
    assert!(rt; is_valid(rt.alloc(), RULES, LOTTERY)?);
    assert!(rt; is_valid(rt.alloc(), BLOCKED_RULES, CUT)?);
    Ok(())
}

// What `write_rules` writes of rules that were read.
fn written_again(alloc: Global, rules: &str, answer: &str) -> Result<SureSink, Fail> {
    let certificate = read(alloc, rules, answer)??;
    let mut sink = SureSink::new(alloc);
    write_rules(&certificate.rules, &mut sink)?;
    Ok(sink)
}

#[test]
fn rules_are_written_as_they_were_read(rt: HostRuntime) -> Result<(), Fail> {
    let sink = written_again(rt.alloc(), RULES, LOTTERY)?;
    assert_eq!(rt; sink.bytes(), RULES.as_bytes());
    Ok(())
}

// Why a text of these papers and reviewers isn't read, where nothing else is wrong.
fn refusal_of(alloc: Global, papers: &str, reviewers: &str) -> Result<Option<ReadRefusal>, Fail> {
    let rules = format!(in alloc;
        "rules 1\ntickets 10000\nlimit 1\npapers 2\n{papers}reviewers 2\n{reviewers}pairs 0\nend rules\n"
    )?;
    let answer =
        "lottery 1\nmode whole\nthreshold none\ntotal 0\npaper-prices 2\n0\n0\ngroup-prices 0\nreviewer-prices 2\n0\n0\nshares 0\ncut none\npieces 1\n10000\nend lottery\n";
    Ok(read(alloc, rules.as_str(), answer)?.err())
}

fn bad_line(number: u64, code: LineCode) -> Option<ReadRefusal> {
    Some(ReadRefusal::BadLine { number, code })
}

#[test]
fn lines_of_ids_are_refused(rt: HostRuntime) -> Result<(), Fail> {
    let alloc = rt.alloc();
    let ids = ("p1 0\np2 0\n", "r1 0 1\nr2 0 1 u\n");
    assert_eq!(rt; refusal_of(alloc, ids.0, ids.1)?, None);
    for (papers, reviewers, number, code) in [
        ("p,1 0\np2 0\n", ids.1, 5, LineCode::Id),
        ("p2 0\np1 0\n", ids.1, 6, LineCode::Order),
        (ids.0, "r1 0 1\nr2 0 1 u;v\n", 9, LineCode::Id),
        (ids.0, "r2 0 1\nr1 0 1 u\n", 9, LineCode::Order),
    ] {
        assert_eq!(rt;
            refusal_of(alloc, papers, reviewers)?,
            bad_line(number, code)
        );
    }
    Ok(())
}

#[test]
fn each_cut_is_truncated(rt: HostRuntime) -> Result<(), Fail> {
    let alloc = rt.alloc();
    let mut bytes = Vec::from_slice(alloc, RULES.as_bytes())?;
    bytes.extend_from_slice(LOTTERY.as_bytes())?;
    for length in 0..bytes.len() {
        let cut = Vec::from_slice(alloc, &bytes[..length])?;
        let read = read_certificate(alloc, &mut SureSource::new(cut));
        assert_eq!(rt; read.err(), Some(ReadRefusal::Truncated));
    }
    Ok(())
}

fn rules_of(alloc: Global, text: &str) -> Result<Result<Rules, ReadRefusal>, AllocError> {
    let bytes = Vec::from_slice(alloc, text.as_bytes())?;
    Ok(read_rules(alloc, &mut SureSource::new(bytes)))
}

#[test]
fn rules_and_an_answer_are_read_alone(rt: HostRuntime) -> Result<(), Fail> {
    let alloc = rt.alloc();
    let rules = rules_of(alloc, RULES)??;
    assert!(rt; read_answer(alloc, &rules, LOTTERY.as_bytes()).is_ok());
    let both = format!(in alloc; "{RULES}{LOTTERY}")?;
    assert_eq!(rt;
        rules_of(alloc, both.as_str())?.err(),
        Some(ReadRefusal::Trailing)
    );
    // Lines are counted from the first of the answer.
    let half = "lottery 1\nmode half\n";
    assert_eq!(rt;
        read_answer(alloc, &rules, half.as_bytes()).err(),
        bad_line(2, LineCode::Form)
    );
    Ok(())
}
