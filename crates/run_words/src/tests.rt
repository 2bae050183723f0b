//! Tests of the words through their public call.
use crate::{
    DEFAULT_BUDGET, DEFAULT_NUMBER, DEFAULT_WORKERS, RunMode, Settings, WordsError, read_words,
};
use std::alloc::{AllocError, Global};

/// Words, each but the last before a bar, with the settings that they ask for: the mode, the workers, the frames, the
/// budget and the number.
struct Row {
    words: &'static str,
    want: (RunMode, u32, u32, Option<u32>, u64, u32),
}

const READ: &[Row] = &[
    Row {
        words: "",
        want: (RunMode::Render, 4, 0, None, 536_870_912, 1),
    },
    Row {
        words: "--mode|check|--workers=64|--from|0007|--to=65535|--budget|0|--seed=4294967295",
        want: (RunMode::Check, 64, 7, Some(65_535), 0, 4_294_967_295),
    },
    Row {
        words: "--seed|0|--budget=1099511627776|--to|0|--from=65535|--workers|1|--mode=summary",
        want: (RunMode::Summary, 1, 65_535, Some(0), 1_099_511_627_776, 0),
    },
    Row {
        words: "--mode=demo|--from|0000000000012",
        want: (RunMode::Demo, 4, 12, None, 536_870_912, 1),
    },
    Row {
        words: "--mode|render",
        want: (RunMode::Render, 4, 0, None, 536_870_912, 1),
    },
];

const REFUSED: &[&str] = &[
    "--mode=Check",
    "--mode|",
    "--mode",
    "--mode=check|--mode=check",
    "--mode=check ",
    "--workers=0",
    "--workers|65",
    "--workers=2|--from|1|--workers=2",
    "--from=65536",
    "--from|9999999999999",
    "--from|00000000000012",
    "--from",
    "--from=",
    "--from|",
    "--from|1|--to",
    "--from|--to",
    "--from|--to|1",
    "--from|-1",
    "--from|+1",
    "--from|1x",
    "--from=-1",
    "--from==1",
    "--from 1",
    "--budget=1099511627777",
    "--seed=4294967296",
    "--worker|4",
    "--workersx=4",
    "--number|4",
    "--help",
    "--version",
    "-h",
    "-",
    "--",
    "--from|1|--",
    "--from|--|1",
    "--|--from|1",
    "--=1",
    "from|1",
    "help",
    "1",
    "|",
    "--from|1||",
];

/// The words of a text, in which each but the last ends with a bar.
fn words_of(alloc: Global, text: &str) -> Result<Vec<String>, AllocError> {
    let mut words = Vec::new(alloc);
    if !text.is_empty() {
        for word in text.split('|') {
            words.push(String::from_str(alloc, word)?)?;
        }
    }
    Ok(words)
}

#[test]
fn words_are_read(rt: HostRuntime) -> Result<(), AllocError> {
    for row in READ {
        let words = words_of(rt.alloc(), row.words)?;
        let (mode, workers, from, to, budget, number) = row.want;
        let want = Settings {
            mode,
            workers,
            from,
            to,
            budget,
            number,
        };
        assert_eq!(rt;
            read_words(rt.alloc(), &words),
            Ok(want),
            "at {:?}",
            row.words
        );
    }
    Ok(())
}

#[test]
fn words_are_refused(rt: HostRuntime) -> Result<(), AllocError> {
    for texts in REFUSED {
        let words = words_of(rt.alloc(), texts)?;
        assert_eq!(rt;
            read_words(rt.alloc(), &words),
            Err(WordsError::Refused),
            "at {texts:?}"
        );
    }
    Ok(())
}

#[test]
fn the_defaults_are_public(rt: HostRuntime) {
    assert_eq!(rt;
        (DEFAULT_WORKERS, DEFAULT_BUDGET, DEFAULT_NUMBER),
        (4, 536_870_912, 1)
    );
}
