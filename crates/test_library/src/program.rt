use crate::sinks::Measured;
use ark_base::IoSink;
use polyrun_lib::run;
use std::alloc::Global;
use std::string::String;
use std::test::Fail;

// The words with memory of their own.
fn owned(alloc: Global, words: &[&str]) -> Result<Vec<String>, Fail> {
    let mut owned = Vec::with_capacity(alloc, words.len())?;
    for word in words {
        owned.push(word.to_string(alloc)?)?;
    }
    Ok(owned)
}

#[test]
fn lines_before_a_failure_stand(rt: HostRuntime) -> Result<(), Fail> {
    let words = owned(rt.alloc(), &["5", "vectors"])?;
    let mut out = IoSink::new(Measured {
        at_a_time: usize::MAX,
        room: 12,
        calls: 0,
        taken: Vec::new(rt.alloc()),
    });
    let status = run(rt.alloc(), &words, &mut out);
    assert_eq!(rt; status, 3);
    assert_eq!(rt;
        String::from_utf8(out.into_inner().taken)?.as_str(),
        "1 ok\n2 ok\n3 "
    );
    Ok(())
}

// Whether a text is these lines, or the first of them and the line of refused memory, with the status of that.
fn is_cut_short(text: &str, status: u8, lines: &[&str]) -> bool {
    let mut rest = text;
    for line in lines {
        match rest.strip_prefix(*line) {
            Some(after) => rest = after,
            None => return rest == "error 1: Memory\n" && status == 1,
        }
    }
    rest == "" && status == 0
}

const FIVE_LINES: [&str; 5] = ["1 ok\n", "2 ok\n", "3 ok\n", "4 ok\n", "5 ok\n"];

// All five lines come, unless the tests are run so that an allocation fails.
#[test]
fn lines_before_refused_memory_stand(rt: HostRuntime) -> Result<(), Fail> {
    let words = owned(rt.alloc(), &["5", "vectors"])?;
    let mut out = IoSink::new(Vec::with_capacity(rt.alloc(), 64)?);
    let status = run(rt.alloc(), &words, &mut out);
    let text = out.into_inner();
    assert!(rt; is_cut_short(str::from_utf8(&text)?, status, &FIVE_LINES));
    Ok(())
}
