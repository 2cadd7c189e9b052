// Texts refused: every kind of refusal that a text can meet, with its line and its sentence.
use std::alloc::Global;
use std::test::Fail;
use texts::{Reader, put_refusal};

// The line for the first junction of a text, if it is refused; nothing if it is taken.
fn refusal_line(heap: Global, text: &[u8]) -> Result<Vec<u8>, Fail> {
    let mut out = Vec::new(heap);
    let mut reader = Reader::new(text);
    let Some(section) = reader.next(heap)? else {
        return Err(Fail::new("no junction"));
    };
    if let Err(refusal) = section.junction(heap)? {
        put_refusal(&mut out, &section, refusal)?;
    }
    Ok(out)
}

#[test]
fn by_what_numbers_say(rt: HostRuntime) -> Result<(), Fail> {
    let cases: [(&[u8], &[u8]); 7] = [
        (b"cycle 120\na least 1 comes 120\n", b""),
        (
            b"cycle 121\na least 1 comes 1\n",
            b"refused 1 at 121: cycle is 121, above 120\n",
        ),
        (
            b"cycle 0\na least 1 comes 1\n",
            b"refused 1 at 0: cycle is 0, below 1\n",
        ),
        (b"cycle 9\n", b"refused 2 at 0: there is no stream\n"),
        (
            b"cycle 9\na least 121 comes 1\n",
            b"refused 2 at 0: least of a is 121, above 120\n",
        ),
        (
            b"cycle 9\na least 1 comes 1\na 2 a\n",
            b"refused 3 at 0: a crosses itself\n",
        ),
        (
            b"junction x\ncycle 9\na least 1 comes 1\nb least 1 comes 1\nb 2 a",
            b"x: refused 3 at 1: b crosses a, but a SECONDS b is not said\n",
        ),
    ];
    for (text, line) in cases {
        let said = refusal_line(rt.alloc(), text)?;
        assert!(rt; said.as_slice() == line);
    }
    Ok(())
}

#[test]
fn by_lines_that_cannot_be_read(rt: HostRuntime) -> Result<(), Fail> {
    let cases: [(&[u8], &[u8]); 6] = [
        (b"", b"refused 5 at 0: there is no cycle\n"),
        (
            b"# nothing\njunction x\na least 1 comes 1\njunction y\n",
            b"x: refused 5 at 3: there is no cycle\n",
        ),
        (
            b"cycle 9\ncycle 9\n",
            b"refused 5 at 1: cycle is said twice\n",
        ),
        (
            b"cycle nine\n",
            b"refused 5 at 0: \"nine\" is not a number; the line has to be cycle SECONDS\n",
        ),
        (
            b"cycle 9\na least 1 comes 1\na 2 b\n",
            b"refused 5 at 2: \"b\" is no stream of this junction\n",
        ),
        (
            b"cycle 9\na least 1 comes 1\na least 1 comes 1\n",
            b"refused 5 at 2: a is said twice\n",
        ),
    ];
    for (text, line) in cases {
        let said = refusal_line(rt.alloc(), text)?;
        assert!(rt; said.as_slice() == line);
    }
    Ok(())
}
