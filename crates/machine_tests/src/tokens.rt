//! Short files, and what they spell: each line's number, and its words between `<` and `>`; behind a `!` the number of the line
//! that is left out.

use rc_tokens::{Line, Tokens, lines};
use std::alloc::Global;
use std::test::Fail;

const BLANKS: (&[u8], &[u8]) = (
    b"a\na\n\n\na\na b\n \t\ra\t b\r\n\na\rb\na\nb\n\nc\n \n\t\n\na\x0bb\x00\xff\n1\n2\n3\n4\n5\n6\n7\n8\n9\n\n\nx\n",
    b"1<a>2<a>5<a>6<a><b>7<a><b>9<a><b>10<a>11<b>13<c>17<a\x0bb\x00\xff>18<1>19<2>20<3>21<4>22<5>23<6>24<7>25<8>26<9>29<x>",
);

const COMMENTS: (&[u8], &[u8]) = (
    b"#\n#a\n#a\nb\na #b\nc\na#b\n# \"\n\"b\" \n#\\\na\n\"\"#b\n\\#a\na\t#\r\n#\n b\n",
    b"4<b>5<a>6<c>7<a#b>9<b>11<a>12<#b>13<#a>14<a>16<b>",
);

const QUOTES: (&[u8], &[u8]) = (
    b"\"\"\n\"a b\"\na\"b c\"d\n\"a\"\"b\"\n\"a\" \"b\"\n\"a\\nb\"\n\"a\\\" b\n\"a\nb\" c\nd\na \"b\n\nc\"\nd\n\"#a\"\n\"\" \"\"\n\"\\\n  \"\n\"\t\r\"\n\n\"\n\" a\nb\n",
    b"1<>2<a b>3<ab cd>4<ab>5<a><b>6<a\\nb>7<a\\><b>8<a\nb><c>10<d>11<a><b\n\nc>14<d>15<#a>16<><>17<\\\n  >19<\t\r>21<\n><a>23<b>",
);

const ESCAPES: (&[u8], &[u8]) = (
    b"\\n\n\\r\\t\n\\\\\na\\ b\n\\\"a b\n\\a\\N\\0\n\\\t\n\\\ra\n\\\r\r\nb\na\\\r\"b c\"\n\\\r b\n",
    b"1<\n>2<\r\t>3<\\>4<a b>5<\"a><b>6<aN0>7<\t>8<\ra>9<\r>10<b>11<a\rb c>12<\r><b>",
);

const FOLDS: (&[u8], &[u8]) = (
    b"a\\\nb\na\\\n \t b\na \\\nb\nc\na\\\r\n  b c\nd\na\\\n\rb\n\\\na\n\\\n\na\n\\\n \ra\nb\n\\\n#a\na\\\n #b\na\\\n\\\n b\na\\\n\n\\\n\n\\\n\"\"\na\\\n\nb\n\\\r\n\t\\\r\n b\na\\\n  \\n\n",
    b"1<ab>3<ab>5<a><b>7<c>8<ab><c>10<d>11<a><b>13<a>17<a>19<a>20<b>21<#a>23<a#b>25<ab>28<a>32<>34<a>36<b>37<b>40<a\n>",
);

/// Adds a line as the constants have it.
fn add_line(out: &mut Vec<u8>, alloc: Global, line: &Line<'_>) -> Result<(), Fail> {
    out.extend_from_slice(format!(in alloc; "{}", line.number())?.as_bytes())?;
    for word in line.words() {
        out.push(b'<')?;
        out.extend_from_slice(word.bytes())?;
        out.push(b'>')?;
    }
    Ok(())
}

/// What was read, as the constants have it.
fn shown(alloc: Global, tokens: &Tokens) -> Result<Vec<u8>, Fail> {
    let mut out = Vec::new(alloc);
    let mut left = tokens.lines();
    for _ in 0..left.len() {
        let Some(line) = left.pop() else {
            break;
        };
        add_line(&mut out, alloc, &line)?;
    }
    if let Some(number) = tokens.dropped() {
        out.extend_from_slice(format!(in alloc; "!{}", number)?.as_bytes())?;
    }
    Ok(out)
}

fn spells(alloc: Global, file: &[u8], want: &[u8]) -> Result<bool, Fail> {
    let tokens = lines(alloc, file)?;
    let text = shown(alloc, &tokens)?;
    Ok(text.as_slice() == want)
}

#[test]
fn token_lines(rt: HostRuntime) -> Result<(), Fail> {
    let alloc = rt.alloc();
    let file = b"write /a \"x\\y\" b\\ c d\\\n   e #tail\nsetprop a \"b";
    assert!(rt; spells(alloc, file, b"1<write></a><x\\y><b c><de>!3")?);
    assert!(rt; spells(alloc, BLANKS.0, BLANKS.1)?);
    assert!(rt; spells(alloc, COMMENTS.0, COMMENTS.1)?);
    assert!(rt; spells(alloc, QUOTES.0, QUOTES.1)?);
    assert!(rt; spells(alloc, ESCAPES.0, ESCAPES.1)?);
    assert!(rt; spells(alloc, FOLDS.0, FOLDS.1)?);
    Ok(())
}

/// The end of the file in an open quote or behind a lone backslash.
#[test]
fn line_cut_by_the_end_of_the_file(rt: HostRuntime) -> Result<(), Fail> {
    let alloc = rt.alloc();
    assert!(rt; spells(alloc, b"a\nb \"c\n", b"1<a>!2")?);
    assert!(rt; spells(alloc, b"a\n\n \"b\n\nc", b"1<a>!3")?);
    assert!(rt; spells(alloc, b"a\nb\\\nc \"", b"1<a>!2")?);
    assert!(rt; spells(alloc, b"\"a\"\n\"b\" #\"\nc\\", b"1<a>2<b>!3")?);
    Ok(())
}
