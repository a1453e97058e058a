// Taking apart at the edge of each refusal: where it is met, and where it just is not.
#![tactic(auto)]

#[cfg(test)]
mod tests {
    use layers::{Fault, Layer, Refusal};
    use records::{Records, take_apart};
    use std::process::Abort;
    use std::test::Fail;

    // What comes of it: the first record's length, or a refusal.
    type Outcome = Result<usize, Refusal>;

    fn refused(number: u8, place: usize, layer: Layer) -> Outcome {
        Err(Refusal {
            number,
            place,
            layer,
        })
    }

    // What a case shows, its bytes, and what comes of it.
    #[derive(Clone, Copy)]
    struct Case(&'static str, &'static str, Outcome);

    fn taken_apart(bytes: &[u8]) -> Outcome {
        let (record, _) = take_apart(bytes).map_err(|fault| fault.refusal())?;
        Ok(record.bytes.len())
    }

    fn check_cases(rt: &impl Abort, cases: &[Case]) {
        for case in cases {
            let Case(shows, bytes, outcome) = *case;
            assert_eq!(rt; taken_apart(bytes.as_bytes()), outcome, "{}", shows);
        }
    }

    #[test]
    fn signature(rt: HostRuntime) {
        check_cases(
            &rt,
            &[
                Case("no bytes at all", "", refused(1, 0, Layer::Record)),
                Case("five bytes", "{\\rtf", refused(1, 0, Layer::Record)),
                Case("the six bytes", "{\\rtf1}", Ok(7)),
                Case(
                    "a digit after them",
                    "{\\rtf12}",
                    refused(1, 0, Layer::Record),
                ),
                Case("a letter after them", "{\\rtf1x}", Ok(8)),
                Case("another case", "{\\RTF1}", refused(1, 0, Layer::Record)),
                Case(
                    "layout before them",
                    "\r\n{\\rtf1}",
                    refused(1, 0, Layer::Record),
                ),
            ],
        );
    }

    #[test]
    fn names_and_numbers(rt: HostRuntime) {
        check_cases(
            &rt,
            &[
                Case(
                    "32 letters",
                    "{\\rtf1\\aaaaaaaaaaaaaaaaaaaaaaaaaaaaaaaa}",
                    Ok(40),
                ),
                Case(
                    "33 letters",
                    "{\\rtf1\\aaaaaaaaaaaaaaaaaaaaaaaaaaaaaaaaa}",
                    refused(2, 6, Layer::Tokens),
                ),
                Case("ten digits", "{\\rtf1\\x0000000001}", Ok(19)),
                Case(
                    "eleven digits",
                    "{\\rtf1\\x00000000001}",
                    refused(2, 6, Layer::Tokens),
                ),
                Case("the largest number", "{\\rtf1\\x2147483647}", Ok(19)),
                Case(
                    "one more",
                    "{\\rtf1\\x2147483648}",
                    refused(2, 6, Layer::Tokens),
                ),
                Case("the smallest number", "{\\rtf1\\x-2147483648}", Ok(20)),
                Case(
                    "one less",
                    "{\\rtf1\\x-2147483649}",
                    refused(2, 6, Layer::Tokens),
                ),
                Case("a minus and no digit", "{\\rtf1\\x-}", Ok(10)),
            ],
        );
    }

    #[test]
    fn backslashes(rt: HostRuntime) {
        check_cases(
            &rt,
            &[
                Case(
                    "a lone backslash at the end",
                    "{\\rtf1\\",
                    refused(2, 6, Layer::Tokens),
                ),
                Case(
                    "a backslash before the brace",
                    "{\\rtf1\\}",
                    refused(4, 0, Layer::Groups),
                ),
                Case("two hexadecimal digits", "{\\rtf1\\'4F}", Ok(11)),
                Case(
                    "one digit and the brace",
                    "{\\rtf1a\\'4}",
                    refused(2, 7, Layer::Tokens),
                ),
                Case(
                    "one digit at the end",
                    "{\\rtf1\\'4",
                    refused(2, 6, Layer::Tokens),
                ),
                Case(
                    "a line break between the digits",
                    "{\\rtf1\\'4\r\n1}",
                    refused(2, 6, Layer::Tokens),
                ),
                Case("bytes of bin up to the last", "{\\rtf1\\bin3 }}}}", Ok(16)),
                Case(
                    "bytes of bin to the end",
                    "{\\rtf1\\bin4 }}}}",
                    refused(4, 0, Layer::Groups),
                ),
                Case(
                    "one byte of bin too many",
                    "{\\rtf1\\bin5 }}}}",
                    refused(2, 6, Layer::Tokens),
                ),
                Case("bin of none", "{\\rtf1\\bin0}", Ok(12)),
            ],
        );
    }

    #[test]
    fn open_groups(rt: HostRuntime) {
        check_cases(
            &rt,
            &[
                Case(
                    "64 groups",
                    "{\\rtf1 {{{{{{{{{{{{{{{{{{{{{{{{{{{{{{{{{{{{{{{{{{{{{{{{{{{{{{{{{{{{{{{}}}}}}}}}}}}}}}}}}}}}}}}}}}}}}}}}}}}}}}}}}}}}}}}}}}}}}}}}}}}}}}}",
                    Ok(134),
                ),
                Case(
                    "65 groups",
                    "{\\rtf1 {{{{{{{{{{{{{{{{{{{{{{{{{{{{{{{{{{{{{{{{{{{{{{{{{{{{{{{{{{{{{{{{}}}}}}}}}}}}}}}}}}}}}}}}}}}}}}}}}}}}}}}}}}}}}}}}}}}}}}}}}}}}}}}}}",
                    refused(3, 70, Layer::Groups),
                ),
                Case(
                    "65 groups, one after the other",
                    "{\\rtf1 {}{}{}{}{}{}{}{}{}{}{}{}{}{}{}{}{}{}{}{}{}{}{}{}{}{}{}{}{}{}{}{}{}{}{}{}{}{}{}{}{}{}{}{}{}{}{}{}{}{}{}{}{}{}{}{}{}{}{}{}{}{}{}{}{}}",
                    Ok(138),
                ),
                Case(
                    "a flaw before the 65th",
                    "{\\rtf1\\'x{{{{{{{{{{{{{{{{{{{{{{{{{{{{{{{{{{{{{{{{{{{{{{{{{{{{{{{{{{{{{{{{}}}}}}}}}}}}}}}}}}}}}}}}}}}}}}}}}}}}}}}}}}}}}}}}}}}}}}}}}}}}}}}}}",
                    refused(2, 6, Layer::Tokens),
                ),
                Case(
                    "the first group left open",
                    "{\\rtf1",
                    refused(4, 0, Layer::Groups),
                ),
                Case(
                    "an inner group left open",
                    "{\\rtf1{a{}",
                    refused(4, 6, Layer::Groups),
                ),
                Case("two left open", "{\\rtf1{a{", refused(4, 8, Layer::Groups)),
                Case("bytes after the record", "{\\rtf1}\\'", Ok(7)),
            ],
        );
    }

    // The records before a refusal, and the refusal's place counted from the archive's start.
    #[test]
    fn archives(rt: HostRuntime) -> Result<(), Fail> {
        let archive = "{\\rtf1{a}}{\\rtf1 b}{\\rtf1{\\'4}}";
        let mut records = Records::new(archive.as_bytes());
        let first = records.next().ok_or("no first record")?;
        assert!(rt;
            matches!(first, Ok(record) if record.place == 0 && record.bytes == b"{\\rtf1{a}}".as_slice())
        );
        let second = records.next().ok_or("no second record")?;
        assert!(rt;
            matches!(second, Ok(record) if record.place == 10 && record.bytes == b"{\\rtf1 b}".as_slice())
        );
        let third = records.next().ok_or("no refusal")?;
        assert!(rt;
            matches!(third, Err(fault) if fault.number() == 2 && fault.place() == 26 && fault.rest == 19)
        );
        assert!(rt; records.next().is_none());
        assert_eq!(rt; Records::new(b"").count(), 0);
        Ok(())
    }
}
