// The writing calls at the edge of each refusal: where it is met, and where it just is not.
#![tactic(auto)]

#[cfg(test)]
mod tests {
    use layers::{Fault, Layer, Refusal};
    use pages::{Ascii20127, CodePage, Windows1251, Windows1252};
    use records::Kind;
    use sinks::{BufferSink, Sink};
    use sittings::{Call, make};
    use std::process::Abort;
    use std::test::Fail;
    use writer::Writer;

    // What comes of a call: how many bytes were put, or the refusal.
    type Told = Result<usize, Refusal>;

    fn refused(number: u8, place: usize, layer: Layer) -> Told {
        Err(Refusal {
            number,
            place,
            layer,
        })
    }

    // What stands before a call: the calls that were made, and how many bytes the archive has then.
    #[derive(Clone, Copy)]
    struct Before(&'static [Call<'static>], usize);

    // No record, an open one with its header alone, or one that was finished.
    const NOTHING: Before = Before(&[], 0);

    const HTML: Before = Before(&[Call::Open(Kind::Html)], 100);

    const TEXT: Before = Before(&[Call::Open(Kind::Text)], 86);

    const FINISHED: Before = Before(&[Call::Open(Kind::Html), Call::Finish], 101);

    // What a case shows, what stands before, how much space is left then, the call, and what comes of it.
    #[derive(Clone, Copy)]
    struct Case(&'static str, Before, usize, Call<'static>, Told);

    // Room for the small cases, and for a whole record with some more.
    const ROOM: usize = 512;

    const LARGE: usize = 33_000;

    // The most bytes that an open record has.
    const MOST: usize = 32_767;

    // Makes a call, and checks what came of it: a refused one leaves the state, the count and the space as they were.
    fn check_call<P: CodePage, S: Sink>(
        rt: &impl Abort,
        shows: &str,
        writer: &mut Writer<P, S>,
        call: Call<'_>,
        told: Told,
    ) {
        let state = writer.state();
        let count = writer.sink().count();
        let space = writer.sink().space();
        assert_eq!(rt;
            make(writer, call).map_err(|fault| fault.refusal()),
            told,
            "{}",
            shows
        );
        if told.is_err() {
            assert_eq!(rt; writer.state(), state, "what is open: {}", shows);
        }
        let more = told.unwrap_or(0);
        assert_eq!(rt;
            writer.sink().count(),
            count.saturating_add(more),
            "the count: {}",
            shows
        );
        assert_eq!(rt;
            writer.sink().space().saturating_add(more),
            space,
            "the space: {}",
            shows
        );
    }

    fn prepare<P: CodePage, S: Sink>(
        writer: &mut Writer<P, S>,
        before: Before,
    ) -> Result<(), Fail> {
        for call in before.0 {
            make(writer, *call)?;
        }
        Ok(())
    }

    fn check_case(rt: &impl Abort, case: &Case) -> Result<(), Fail> {
        let Case(shows, before, space, call, told) = *case;
        let size = before.1.saturating_add(space);
        assert!(rt; size <= ROOM);
        let mut room = [0; ROOM];
        let mut writer = Writer::new(Windows1252, BufferSink::new(&mut room[0..size]));
        prepare(&mut writer, before)?;
        check_call(rt, shows, &mut writer, call, told);
        Ok(())
    }

    fn check_cases(rt: &impl Abort, cases: &[Case]) -> Result<(), Fail> {
        cases.iter().try_for_each(|case| check_case(rt, case))
    }

    fn check_header<P: CodePage + Drop>(
        rt: &impl Abort,
        page: P,
        kind: Kind,
        space: usize,
        told: Told,
    ) {
        assert!(rt; space <= ROOM);
        let mut room = [0; ROOM];
        let mut writer = Writer::new(page, BufferSink::new(&mut room[0..space]));
        check_call(rt, "a header", &mut writer, Call::Open(kind), told);
    }

    const FULL: Told = Err(Refusal {
        number: 24,
        place: 0,
        layer: Layer::Writer,
    });

    #[test]
    fn a_header_needs_its_brace_too(rt: HostRuntime) {
        check_header(&rt, Windows1252, Kind::Html, 100, FULL);
        check_header(&rt, Windows1252, Kind::Html, 101, Ok(100));
        check_header(&rt, Windows1252, Kind::Text, 86, FULL);
        check_header(&rt, Windows1252, Kind::Text, 87, Ok(86));
        check_header(&rt, Windows1251, Kind::Html, 100, FULL);
        check_header(&rt, Windows1251, Kind::Html, 101, Ok(100));
    }

    #[test]
    fn a_page_of_five_digits_needs_one_byte_more(rt: HostRuntime) {
        check_header(&rt, Ascii20127, Kind::Html, 101, FULL);
        check_header(&rt, Ascii20127, Kind::Html, 102, Ok(101));
        check_header(&rt, Ascii20127, Kind::Text, 87, FULL);
        check_header(&rt, Ascii20127, Kind::Text, 88, Ok(87));
    }

    #[test]
    fn each_state_takes_its_calls(rt: HostRuntime) -> Result<(), Fail> {
        check_cases(
            &rt,
            &[
                Case(
                    "text without a record",
                    NOTHING,
                    300,
                    Call::Text(b"a"),
                    refused(21, 0, Layer::Writer),
                ),
                Case(
                    "markup without a record",
                    NOTHING,
                    300,
                    Call::Markup(b"a"),
                    refused(21, 0, Layer::Writer),
                ),
                Case(
                    "decoration without a record",
                    NOTHING,
                    300,
                    Call::Dress(b"a"),
                    refused(21, 0, Layer::Writer),
                ),
                Case(
                    "an end without a record",
                    NOTHING,
                    300,
                    Call::Finish,
                    refused(21, 0, Layer::Writer),
                ),
                Case(
                    "an end after the end",
                    FINISHED,
                    300,
                    Call::Finish,
                    refused(21, 0, Layer::Writer),
                ),
                Case("text in HTML", HTML, 300, Call::Text(b"a"), Ok(1)),
                Case("markup in HTML", HTML, 300, Call::Markup(b"a"), Ok(14)),
                Case("decoration in HTML", HTML, 300, Call::Dress(b"a"), Ok(20)),
                Case("the end of HTML", HTML, 300, Call::Finish, Ok(1)),
                Case(
                    "HTML in HTML",
                    HTML,
                    300,
                    Call::Open(Kind::Html),
                    refused(22, 0, Layer::Writer),
                ),
                Case(
                    "a text in HTML",
                    HTML,
                    300,
                    Call::Open(Kind::Text),
                    refused(22, 0, Layer::Writer),
                ),
                Case(
                    "HTML in a text",
                    TEXT,
                    300,
                    Call::Open(Kind::Html),
                    refused(22, 0, Layer::Writer),
                ),
                Case(
                    "a text in a text",
                    TEXT,
                    300,
                    Call::Open(Kind::Text),
                    refused(22, 0, Layer::Writer),
                ),
                Case(
                    "HTML after the end",
                    FINISHED,
                    300,
                    Call::Open(Kind::Html),
                    Ok(100),
                ),
                Case(
                    "a text after the end",
                    FINISHED,
                    300,
                    Call::Open(Kind::Text),
                    Ok(86),
                ),
                Case(
                    "markup in a text",
                    TEXT,
                    300,
                    Call::Markup(b"a"),
                    refused(23, 0, Layer::Writer),
                ),
                Case(
                    "decoration in a text",
                    TEXT,
                    300,
                    Call::Dress(b"a"),
                    refused(23, 0, Layer::Writer),
                ),
                Case("text in a text", TEXT, 300, Call::Text(b"a"), Ok(1)),
                Case("the end of a text", TEXT, 300, Call::Finish, Ok(1)),
            ],
        )
    }

    #[test]
    fn pieces_are_utf8(rt: HostRuntime) -> Result<(), Fail> {
        check_cases(
            &rt,
            &[
                Case("no bytes at all", HTML, 300, Call::Text(b""), Ok(0)),
                Case(
                    "a byte that starts nothing",
                    HTML,
                    300,
                    Call::Text(b"ab\xFF"),
                    refused(13, 2, Layer::Writer),
                ),
                Case(
                    "the character of that byte",
                    HTML,
                    300,
                    Call::Text(b"ab\xC3\xBF"),
                    Ok(6),
                ),
                Case(
                    "a byte that only goes on",
                    HTML,
                    300,
                    Call::Text(b"a\x80"),
                    refused(13, 1, Layer::Writer),
                ),
                Case(
                    "two bytes of three",
                    HTML,
                    300,
                    Call::Text(b"ab\xE2\x82"),
                    refused(13, 2, Layer::Writer),
                ),
                Case(
                    "three bytes of three",
                    HTML,
                    300,
                    Call::Text(b"ab\xE2\x82\xAC"),
                    Ok(6),
                ),
                Case(
                    "a sequence cut short by a letter",
                    HTML,
                    300,
                    Call::Text(b"\xE2\x82x"),
                    refused(13, 0, Layer::Writer),
                ),
                Case(
                    "two bytes for NUL",
                    HTML,
                    300,
                    Call::Text(b"\xC0\x80"),
                    refused(13, 0, Layer::Writer),
                ),
                Case(
                    "three bytes where two do",
                    HTML,
                    300,
                    Call::Text(b"\xE0\x9F\xBF"),
                    refused(13, 0, Layer::Writer),
                ),
                Case(
                    "the first that needs three",
                    HTML,
                    300,
                    Call::Text(b"\xE0\xA0\x80"),
                    Ok(7),
                ),
                Case(
                    "a surrogate",
                    HTML,
                    300,
                    Call::Text(b"\xED\xA0\x80"),
                    refused(13, 0, Layer::Writer),
                ),
                Case(
                    "the last before the surrogates",
                    HTML,
                    300,
                    Call::Text(b"\xED\x9F\xBF"),
                    Ok(9),
                ),
                Case(
                    "beyond the last character",
                    HTML,
                    300,
                    Call::Text(b"\xF4\x90\x80\x80"),
                    refused(13, 0, Layer::Writer),
                ),
                Case(
                    "the last character",
                    HTML,
                    300,
                    Call::Text(b"\xF4\x8F\xBF\xBF"),
                    Ok(16),
                ),
                Case(
                    "markup that is broken",
                    HTML,
                    300,
                    Call::Markup(b"<b\xFF>"),
                    refused(13, 2, Layer::Writer),
                ),
            ],
        )
    }

    #[test]
    fn decoration_is_printable(rt: HostRuntime) -> Result<(), Fail> {
        check_cases(
            &rt,
            &[
                Case(
                    "below the space",
                    HTML,
                    300,
                    Call::Dress(b"a\x1F"),
                    refused(16, 1, Layer::Writer),
                ),
                Case("the space", HTML, 300, Call::Dress(b"a "), Ok(21)),
                Case(
                    "the last that is printable",
                    HTML,
                    300,
                    Call::Dress(b"a~"),
                    Ok(21),
                ),
                Case(
                    "after the last",
                    HTML,
                    300,
                    Call::Dress(b"a\x7F"),
                    refused(16, 1, Layer::Writer),
                ),
                Case(
                    "a line break",
                    HTML,
                    300,
                    Call::Dress(b"\r\n"),
                    refused(16, 0, Layer::Writer),
                ),
                Case(
                    "beyond ASCII",
                    HTML,
                    300,
                    Call::Dress(b"\xC3\xA9"),
                    refused(16, 0, Layer::Writer),
                ),
            ],
        )
    }

    #[test]
    fn decoration_is_balanced(rt: HostRuntime) -> Result<(), Fail> {
        check_cases(
            &rt,
            &[
                Case("a group", HTML, 300, Call::Dress(b"{a}"), Ok(22)),
                Case(
                    "a brace too many",
                    HTML,
                    300,
                    Call::Dress(b"{a}}"),
                    refused(14, 3, Layer::Groups),
                ),
                Case(
                    "a group left open",
                    HTML,
                    300,
                    Call::Dress(b"{a{b}c"),
                    refused(14, 0, Layer::Groups),
                ),
                Case(
                    "the last of two left open",
                    HTML,
                    300,
                    Call::Dress(b"{a{b"),
                    refused(14, 2, Layer::Groups),
                ),
                Case(
                    "braces that are text",
                    HTML,
                    300,
                    Call::Dress(b"\\{\\}\\{"),
                    Ok(25),
                ),
                Case(
                    "63 groups",
                    HTML,
                    300,
                    Call::Dress(
                        b"{{{{{{{{{{{{{{{{{{{{{{{{{{{{{{{{{{{{{{{{{{{{{{{{{{{{{{{{{{{{{{{}}}}}}}}}}}}}}}}}}}}}}}}}}}}}}}}}}}}}}}}}}}}}}}}}}}}}}}}}}}}}}}",
                    ),
                    Ok(145),
                ),
                Case(
                    "64 groups",
                    HTML,
                    300,
                    Call::Dress(
                        b"{{{{{{{{{{{{{{{{{{{{{{{{{{{{{{{{{{{{{{{{{{{{{{{{{{{{{{{{{{{{{{{{}}}}}}}}}}}}}}}}}}}}}}}}}}}}}}}}}}}}}}}}}}}}}}}}}}}}}}}}}}}}}}}}",
                    ),
                    refused(3, 63, Layer::Groups),
                ),
            ],
        )
    }

    #[test]
    fn decoration_has_sound_tokens(rt: HostRuntime) -> Result<(), Fail> {
        check_cases(
            &rt,
            &[
                Case(
                    "a backslash at the end",
                    HTML,
                    300,
                    Call::Dress(b"a\\"),
                    refused(2, 1, Layer::Tokens),
                ),
                Case("two of them", HTML, 300, Call::Dress(b"a\\\\"), Ok(22)),
                Case(
                    "one digit",
                    HTML,
                    300,
                    Call::Dress(b"\\'4"),
                    refused(2, 0, Layer::Tokens),
                ),
                Case(
                    "no digit",
                    HTML,
                    300,
                    Call::Dress(b"\\'4g"),
                    refused(2, 0, Layer::Tokens),
                ),
                Case("two digits", HTML, 300, Call::Dress(b"\\'4A"), Ok(23)),
                Case(
                    "32 letters",
                    HTML,
                    300,
                    Call::Dress(b"\\aaaaaaaaaaaaaaaaaaaaaaaaaaaaaaaa"),
                    Ok(52),
                ),
                Case(
                    "33 letters",
                    HTML,
                    300,
                    Call::Dress(b"\\aaaaaaaaaaaaaaaaaaaaaaaaaaaaaaaaa"),
                    refused(2, 0, Layer::Tokens),
                ),
                Case(
                    "ten digits",
                    HTML,
                    300,
                    Call::Dress(b"\\b2147483647"),
                    Ok(31),
                ),
                Case(
                    "eleven digits",
                    HTML,
                    300,
                    Call::Dress(b"\\b02147483647"),
                    refused(2, 0, Layer::Tokens),
                ),
                Case(
                    "beyond 32 bits",
                    HTML,
                    300,
                    Call::Dress(b"\\b2147483648"),
                    refused(2, 0, Layer::Tokens),
                ),
                Case(
                    "the least number",
                    HTML,
                    300,
                    Call::Dress(b"\\b-2147483648"),
                    Ok(32),
                ),
                Case(
                    "below it",
                    HTML,
                    300,
                    Call::Dress(b"\\b-2147483649"),
                    refused(2, 0, Layer::Tokens),
                ),
            ],
        )
    }

    #[test]
    fn decoration_has_no_marker(rt: HostRuntime) -> Result<(), Fail> {
        check_cases(
            &rt,
            &[
                Case(
                    "the word htmlrtf",
                    HTML,
                    300,
                    Call::Dress(b"a\\htmlrtf"),
                    refused(15, 1, Layer::Writer),
                ),
                Case(
                    "the word htmltag",
                    HTML,
                    300,
                    Call::Dress(b"a\\htmltag"),
                    refused(15, 1, Layer::Writer),
                ),
                Case(
                    "the word mhtmltag",
                    HTML,
                    300,
                    Call::Dress(b"a\\mhtmltag"),
                    refused(15, 1, Layer::Writer),
                ),
                Case(
                    "the word htmlbase",
                    HTML,
                    300,
                    Call::Dress(b"a\\htmlbase"),
                    refused(15, 1, Layer::Writer),
                ),
                Case(
                    "the word fromhtml",
                    HTML,
                    300,
                    Call::Dress(b"a\\fromhtml"),
                    refused(15, 1, Layer::Writer),
                ),
                Case(
                    "the word fromtext",
                    HTML,
                    300,
                    Call::Dress(b"a\\fromtext"),
                    refused(15, 1, Layer::Writer),
                ),
                Case(
                    "the word bin",
                    HTML,
                    300,
                    Call::Dress(b"a\\bin"),
                    refused(15, 1, Layer::Writer),
                ),
                Case(
                    "with a number",
                    HTML,
                    300,
                    Call::Dress(b"\\htmlrtf0 "),
                    refused(15, 0, Layer::Writer),
                ),
                Case(
                    "one letter more",
                    HTML,
                    300,
                    Call::Dress(b"\\htmlrtfx"),
                    Ok(28),
                ),
                Case(
                    "one letter less",
                    HTML,
                    300,
                    Call::Dress(b"\\htmlrt"),
                    Ok(26),
                ),
                Case("in capitals", HTML, 300, Call::Dress(b"\\HTMLRTF"), Ok(27)),
                Case(
                    "a word after an escaped backslash",
                    HTML,
                    300,
                    Call::Dress(b"\\\\htmlrtf"),
                    Ok(28),
                ),
            ],
        )
    }

    #[test]
    fn a_byte_is_kept_for_the_brace(rt: HostRuntime) -> Result<(), Fail> {
        check_cases(
            &rt,
            &[
                Case(
                    "text without that byte",
                    HTML,
                    2,
                    Call::Text(b"ab"),
                    refused(24, 0, Layer::Writer),
                ),
                Case("text with it", HTML, 3, Call::Text(b"ab"), Ok(2)),
                Case("no text", HTML, 1, Call::Text(b""), Ok(0)),
                Case(
                    "markup without it",
                    HTML,
                    14,
                    Call::Markup(b"a"),
                    refused(24, 0, Layer::Writer),
                ),
                Case("markup with it", HTML, 15, Call::Markup(b"a"), Ok(14)),
                Case(
                    "decoration without it",
                    HTML,
                    20,
                    Call::Dress(b"a"),
                    refused(24, 0, Layer::Writer),
                ),
                Case("decoration with it", HTML, 21, Call::Dress(b"a"), Ok(20)),
                Case(
                    "a spelling without it",
                    HTML,
                    4,
                    Call::Text(b"\xE2\x82\xAC"),
                    refused(24, 0, Layer::Writer),
                ),
                Case(
                    "a spelling with it",
                    HTML,
                    5,
                    Call::Text(b"\xE2\x82\xAC"),
                    Ok(4),
                ),
                Case("the brace itself", HTML, 1, Call::Finish, Ok(1)),
                Case(
                    "the next record without it",
                    FINISHED,
                    100,
                    Call::Open(Kind::Html),
                    refused(24, 0, Layer::Writer),
                ),
                Case(
                    "the next record with it",
                    FINISHED,
                    101,
                    Call::Open(Kind::Html),
                    Ok(100),
                ),
            ],
        )
    }

    #[test]
    fn refusals_come_in_their_order(rt: HostRuntime) -> Result<(), Fail> {
        check_cases(
            &rt,
            &[
                Case(
                    "no record before a broken piece",
                    NOTHING,
                    300,
                    Call::Text(b"\xFF"),
                    refused(21, 0, Layer::Writer),
                ),
                Case(
                    "no record before a marker",
                    NOTHING,
                    300,
                    Call::Dress(b"\\bin"),
                    refused(21, 0, Layer::Writer),
                ),
                Case(
                    "an open record before the space",
                    HTML,
                    1,
                    Call::Open(Kind::Html),
                    refused(22, 0, Layer::Writer),
                ),
                Case(
                    "a text before a broken piece",
                    TEXT,
                    300,
                    Call::Markup(b"\xFF"),
                    refused(23, 0, Layer::Writer),
                ),
                Case(
                    "a text before a marker",
                    TEXT,
                    300,
                    Call::Dress(b"\\bin"),
                    refused(23, 0, Layer::Writer),
                ),
                Case(
                    "a broken piece before the space",
                    HTML,
                    1,
                    Call::Text(b"ab\xFF"),
                    refused(13, 2, Layer::Writer),
                ),
                Case(
                    "a marker before the space",
                    HTML,
                    1,
                    Call::Dress(b"\\bin"),
                    refused(15, 0, Layer::Writer),
                ),
                Case(
                    "a marker before its long number",
                    HTML,
                    300,
                    Call::Dress(b"\\htmlrtf99999999999"),
                    refused(15, 0, Layer::Writer),
                ),
                Case(
                    "a marker before its missing bytes",
                    HTML,
                    300,
                    Call::Dress(b"\\bin5 x"),
                    refused(15, 0, Layer::Writer),
                ),
                Case(
                    "a faulty word before a marker after it",
                    HTML,
                    300,
                    Call::Dress(b"\\b99999999999\\bin"),
                    refused(2, 0, Layer::Tokens),
                ),
                Case(
                    "what is not printable before a marker",
                    HTML,
                    300,
                    Call::Dress(b"\\bin\x7F"),
                    refused(16, 4, Layer::Writer),
                ),
                Case(
                    "and before a faulty word",
                    HTML,
                    300,
                    Call::Dress(b"\\'4g\t"),
                    refused(16, 4, Layer::Writer),
                ),
                Case(
                    "and before a brace too many",
                    HTML,
                    300,
                    Call::Dress(b"}\x1F"),
                    refused(16, 1, Layer::Writer),
                ),
                Case(
                    "a brace too many before a marker after it",
                    HTML,
                    300,
                    Call::Dress(b"}\\bin"),
                    refused(14, 0, Layer::Groups),
                ),
                Case(
                    "a marker before a group left open",
                    HTML,
                    300,
                    Call::Dress(b"{\\bin"),
                    refused(15, 1, Layer::Writer),
                ),
                Case(
                    "a faulty word before a group left open",
                    HTML,
                    300,
                    Call::Dress(b"{\\"),
                    refused(2, 1, Layer::Tokens),
                ),
                Case(
                    "a group too deep before one left open",
                    HTML,
                    300,
                    Call::Dress(
                        b"{{{{{{{{{{{{{{{{{{{{{{{{{{{{{{{{{{{{{{{{{{{{{{{{{{{{{{{{{{{{{{{{",
                    ),
                    refused(3, 63, Layer::Groups),
                ),
            ],
        )
    }

    // What a case shows, how many bytes the open record has, the space that is left, the call, and what comes
    // of it.
    #[derive(Clone, Copy)]
    struct Edge(&'static str, usize, usize, Call<'static>, Told);

    // Makes an open record as long as is asked.
    fn fill<P: CodePage, S: Sink>(
        rt: &impl Abort,
        writer: &mut Writer<P, S>,
        length: usize,
    ) -> Result<(), Fail> {
        let letters = [b'x'; MOST];
        assert!(rt; 100 <= length && length <= MOST);
        writer.open(Kind::Html)?;
        writer.text(&letters[0..length - 100])?;
        Ok(())
    }

    fn check_edge(rt: &impl Abort, edge: &Edge) -> Result<(), Fail> {
        let Edge(shows, length, space, call, told) = *edge;
        let size = length.saturating_add(space);
        assert!(rt; size <= LARGE);
        let mut room = [0; LARGE];
        let mut writer = Writer::new(Windows1252, BufferSink::new(&mut room[0..size]));
        fill(rt, &mut writer, length)?;
        check_call(rt, shows, &mut writer, call, told);
        Ok(())
    }

    fn check_edges(rt: &impl Abort, edges: &[Edge]) -> Result<(), Fail> {
        edges.iter().try_for_each(|edge| check_edge(rt, edge))
    }

    #[test]
    fn a_record_has_a_limit(rt: HostRuntime) -> Result<(), Fail> {
        check_edges(
            &rt,
            &[
                Edge("five letters", 32_762, 200, Call::Text(b"xxxxx"), Ok(5)),
                Edge(
                    "six letters",
                    32_762,
                    200,
                    Call::Text(b"xxxxxx"),
                    refused(25, 0, Layer::Writer),
                ),
                Edge(
                    "markup that just fits",
                    32_753,
                    200,
                    Call::Markup(b"x"),
                    Ok(14),
                ),
                Edge(
                    "markup that does not",
                    32_754,
                    200,
                    Call::Markup(b"x"),
                    refused(25, 0, Layer::Writer),
                ),
                Edge(
                    "decoration that just fits",
                    32_747,
                    200,
                    Call::Dress(b"x"),
                    Ok(20),
                ),
                Edge(
                    "decoration that does not",
                    32_748,
                    200,
                    Call::Dress(b"x"),
                    refused(25, 0, Layer::Writer),
                ),
                Edge(
                    "a spelling that just fits",
                    32_760,
                    200,
                    Call::Text(b"\xD0\x96"),
                    Ok(7),
                ),
                Edge(
                    "a spelling that does not",
                    32_761,
                    200,
                    Call::Text(b"\xD0\x96"),
                    refused(25, 0, Layer::Writer),
                ),
                Edge(
                    "no text in a full record",
                    32_767,
                    200,
                    Call::Text(b""),
                    Ok(0),
                ),
                Edge(
                    "a letter in a full record",
                    32_767,
                    200,
                    Call::Text(b"x"),
                    refused(25, 0, Layer::Writer),
                ),
                Edge("the end of a full record", 32_767, 1, Call::Finish, Ok(1)),
                Edge(
                    "the limit before the space",
                    32_767,
                    1,
                    Call::Text(b"x"),
                    refused(25, 0, Layer::Writer),
                ),
                Edge(
                    "the space where the limit is not met",
                    32_765,
                    2,
                    Call::Text(b"xx"),
                    refused(24, 0, Layer::Writer),
                ),
                Edge(
                    "a broken piece before the limit",
                    32_767,
                    200,
                    Call::Text(b"x\xFF"),
                    refused(13, 1, Layer::Writer),
                ),
                Edge(
                    "broken markup before the limit",
                    32_767,
                    200,
                    Call::Markup(b"\xFF"),
                    refused(13, 0, Layer::Writer),
                ),
                Edge(
                    "a marker before the limit",
                    32_767,
                    200,
                    Call::Dress(b"\\bin"),
                    refused(15, 0, Layer::Writer),
                ),
                Edge(
                    "what is not printable before the limit",
                    32_767,
                    200,
                    Call::Dress(b"\t"),
                    refused(16, 0, Layer::Writer),
                ),
                Edge(
                    "a group left open before the limit",
                    32_767,
                    200,
                    Call::Dress(b"{"),
                    refused(14, 0, Layer::Groups),
                ),
            ],
        )
    }

    const TOO_LONG: Told = Err(Refusal {
        number: 25,
        place: 0,
        layer: Layer::Writer,
    });

    // Calls on a record to which five bytes are left: those that are refused do not count.
    fn check_last_calls<P: CodePage, S: Sink>(rt: &impl Abort, writer: &mut Writer<P, S>) {
        check_call(
            rt,
            "a record at its limit",
            writer,
            Call::Text(b"xxxxxx"),
            TOO_LONG,
        );
        check_call(
            rt,
            "a record at its limit",
            writer,
            Call::Open(Kind::Html),
            refused(22, 0, Layer::Writer),
        );
        check_call(
            rt,
            "a record at its limit",
            writer,
            Call::Markup(b"\xFF"),
            refused(13, 0, Layer::Writer),
        );
        check_call(
            rt,
            "a record at its limit",
            writer,
            Call::Dress(b"\\bin"),
            refused(15, 0, Layer::Writer),
        );
        check_call(
            rt,
            "a record at its limit",
            writer,
            Call::Dress(b""),
            TOO_LONG,
        );
        check_call(
            rt,
            "a record at its limit",
            writer,
            Call::Text(b"xxxxx"),
            Ok(5),
        );
        check_call(
            rt,
            "a record at its limit",
            writer,
            Call::Text(b"x"),
            TOO_LONG,
        );
        check_call(rt, "a record at its limit", writer, Call::Finish, Ok(1));
        check_call(
            rt,
            "a record at its limit",
            writer,
            Call::Finish,
            refused(21, 0, Layer::Writer),
        );
    }

    #[test]
    fn refused_calls_leave_the_record_as_it_was(rt: HostRuntime) -> Result<(), Fail> {
        let mut room = [0; LARGE];
        let mut writer = Writer::new(Windows1252, BufferSink::new(&mut room));
        fill(&rt, &mut writer, 32_762)?;
        check_last_calls(&rt, &mut writer);
        assert_eq!(rt; writer.into_sink().into_written().len(), 32_768);
        Ok(())
    }

    // What a spelling shows, the piece, and the bytes that are put.
    #[derive(Clone, Copy)]
    struct Spelled(&'static str, &'static [u8], &'static [u8]);

    // Checks what stands after the header of a text.
    fn check_typed(rt: &impl Abort, shows: &str, archive: &[u8], put: &[u8]) {
        assert!(rt; archive.len() >= 86, "{}", shows);
        assert!(rt; &archive[86..] == put, "{}", shows);
    }

    fn check_spelled(rt: &impl Abort, spelled: &Spelled) -> Result<(), Fail> {
        let Spelled(shows, piece, put) = *spelled;
        let mut room = [0; ROOM];
        let mut writer = Writer::new(Windows1252, BufferSink::new(&mut room));
        prepare(&mut writer, TEXT)?;
        check_call(rt, shows, &mut writer, Call::Text(piece), Ok(put.len()));
        check_typed(rt, shows, writer.into_sink().into_written(), put);
        Ok(())
    }

    fn check_spellings(rt: &impl Abort, spellings: &[Spelled]) -> Result<(), Fail> {
        spellings
            .iter()
            .try_for_each(|spelled| check_spelled(rt, spelled))
    }

    #[test]
    fn characters_are_spelled(rt: HostRuntime) -> Result<(), Fail> {
        check_spellings(
            &rt,
            &[
                Spelled("a lone CR", b"\r", b"\\'0d"),
                Spelled("a lone LF", b"\n", b"\\'0a"),
                Spelled("CR LF", b"\r\n", b"\\par "),
                Spelled("LF CR", b"\n\r", b"\\'0a\\'0d"),
                Spelled("CR before CR LF", b"\r\r\n", b"\\'0d\\par "),
                Spelled("a letter after a CR", b"\rx", b"\\'0dx"),
                Spelled("a tab", b"\t", b"\\tab "),
                Spelled("braces and the backslash", b"{\\}", b"\\{\\\\\\}"),
                Spelled("the first and the last printable", b" ~", b" ~"),
                Spelled("controls", b"\x00\x1F\x7F", b"\\'00\\'1f\\'7f"),
                Spelled(
                    "characters of the page",
                    b"\xE2\x82\xAC\xC3\xBF",
                    b"\\'80\\'ff",
                ),
                Spelled("a control that the page has not", b"\xC2\x81", b"\\u129?"),
                Spelled("a letter that the page has not", b"\xD0\x96", b"\\u1046?"),
                Spelled("the last positive unit", b"\xE7\xBF\xBF", b"\\u32767?"),
                Spelled("the first negative unit", b"\xE8\x80\x80", b"\\u-32768?"),
                Spelled("the last unit", b"\xEF\xBF\xBF", b"\\u-1?"),
                Spelled(
                    "the first of two halves",
                    b"\xF0\x90\x80\x80",
                    b"\\u-10240?\\u-9216?",
                ),
                Spelled("two halves", b"\xF0\x9F\x98\x80", b"\\u-10179?\\u-8704?"),
                Spelled(
                    "the last character",
                    b"\xF4\x8F\xBF\xBF",
                    b"\\u-9217?\\u-8193?",
                ),
                Spelled("what looks like a word", b"\\par ", b"\\\\par "),
            ],
        )
    }

    #[test]
    fn a_line_break_over_two_pieces_is_none(rt: HostRuntime) -> Result<(), Fail> {
        let mut room = [0; ROOM];
        let mut writer = Writer::new(Windows1252, BufferSink::new(&mut room));
        prepare(&mut writer, TEXT)?;
        check_call(
            &rt,
            "CR LF in two pieces",
            &mut writer,
            Call::Text(b"\r"),
            Ok(4),
        );
        check_call(
            &rt,
            "CR LF in two pieces",
            &mut writer,
            Call::Text(b"\n"),
            Ok(4),
        );
        check_typed(
            &rt,
            "CR LF in two pieces",
            writer.into_sink().into_written(),
            b"\\'0d\\'0a",
        );
        Ok(())
    }

    // The header of HTML in page 1252.
    const HEADER: &[u8] =
        b"{\\rtf1\\ansi\\ansicpg1252\\fromhtml1\\deff0{\\fonttbl{\\f0\\fswiss Arial;}}\\uc1\\pard\\plain\\f0{\\*\\htmltag64}";

    #[test]
    fn a_whole_record(rt: HostRuntime) {
        let mut room = [0; ROOM];
        let mut writer = Writer::new(Windows1252, BufferSink::new(&mut room));
        check_call(
            &rt,
            "a whole record",
            &mut writer,
            Call::Open(Kind::Html),
            Ok(100),
        );
        check_call(
            &rt,
            "a whole record",
            &mut writer,
            Call::Markup(b"<p>"),
            Ok(16),
        );
        check_call(
            &rt,
            "a whole record",
            &mut writer,
            Call::Text(b"\xE2\x82\xAC5 {a}"),
            Ok(11),
        );
        check_call(
            &rt,
            "a whole record",
            &mut writer,
            Call::Dress(b"\\b "),
            Ok(22),
        );
        check_call(
            &rt,
            "a whole record",
            &mut writer,
            Call::Markup(b"</p>"),
            Ok(17),
        );
        check_call(&rt, "a whole record", &mut writer, Call::Finish, Ok(1));
        let archive = writer.into_sink().into_written();
        assert!(rt; archive.len() == 167);
        assert!(rt; &archive[0..100] == HEADER);
        assert!(rt;
            &archive[100..]
                == b"{\\*\\htmltag <p>}\\'805 \\{a\\}\\htmlrtf \\b \\htmlrtf0 {\\*\\htmltag </p>}}".as_slice()
        );
    }
}
