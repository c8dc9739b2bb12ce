// The worked rounds and damaged sheets, through the report and the challenge text.
#![tactic(auto)]

#[cfg(test)]
mod tests {
    use report::challenge::{challenge_of, challenge_text};
    use report::report::{report, report_of};
    use rules::words::Refusal;

    // Whether a call writes just this text into the buffer's front, and leaves the bytes behind it.
    fn writes<F: FnOnce(&[u8], &mut [u8]) -> Result<usize, Refusal>>(
        call: F,
        sheet: &[u8],
        text: &[u8],
    ) -> bool
        requires { F.IsAlwaysCallable call }
    {
        let mut buffer = [7; 4200];
        call(sheet, &mut buffer) == Ok(text.len())
            && buffer.starts_with(text)
            && buffer.iter().skip(text.len()).all(|byte| *byte == 7)
    }

    // Whether the report begins so, where which placement it gives is free.
    fn begins(sheet: &[u8], text: &[u8]) -> bool {
        let mut buffer = [7; 4096];
        report(sheet, &mut buffer).is_ok() && buffer.starts_with(text)
    }

    #[test]
    fn worked_rounds(rt: HostRuntime) {
        assert!(rt; writes(report, b"\x00\x00\x00\x00\x00\x00", b"placed 0 of 0\n"));
        assert!(rt;
            writes(
                report,
                b"\x00\x01\x00\x01\x00\x01\x00\x00\x00",
                b"placed 0 of 1\n0 -\n",
            )
        );
        assert!(rt;
            writes(
                report,
                b"\x00\x02\x00\x01\x00\x01\x00\x03\x02\x00\x01\x01\x00\x00\x00\x00",
                b"placed 2 of 3\n0 1\n1 0\n2 -\n",
            )
        );
        assert!(rt;
            writes(
                report,
                b"\x00\x02\x00\x01\x00\x01\x00\x03\x02\x00\x01\x02\x00\x01\x02\x00\x01\x00\x00",
                b"refused 10 round 0\n",
            )
        );
        assert!(rt;
            begins(
                b"\x00\x01\x00\x02\x00\x03\x01\x00\x01\x00\x01\x00\x00\x00",
                b"placed 2 of 3\n",
            )
        );
        assert!(rt;
            writes(
                report,
                b"\x00\x02\x00\x02\x00\x01\x00\x03\x01\x00\x02\x01\x00\x01\x01\x00\x00",
                b"placed 3 of 3\n0 0\n1 0\n2 1\n",
            )
        );
        assert!(rt;
            begins(
                b"\x00\x02\x00\x01\x00\x01\x00\x02\x02\x00\x01\x02\x00\x01\x00\x00",
                b"placed 2 of 2\n",
            )
        );
    }

    #[test]
    fn refused_sheets(rt: HostRuntime) {
        assert!(rt; writes(report, b"", b"refused 1 sheet 0\n"));
        assert!(rt;
            writes(
                report,
                b"\x00\x00\x00\x00\x00\x00\x09",
                b"refused 2 sheet 6\n"
            )
        );
        assert!(rt; writes(report, b"\x00\x65", b"refused 3 sheet 0\n"));
        assert!(rt; writes(report, b"\x00\x01\x01\x91", b"refused 4 sheet 2\n"));
        assert!(rt;
            writes(
                report,
                b"\x00\x01\x00\x01\x00\x01\x01\x01",
                b"refused 5 sheet 7\n"
            )
        );
        assert!(rt;
            writes(
                report,
                b"\x00\x01\x00\x01\x00\x01\x02\x00\x00",
                b"refused 6 sheet 8\n",
            )
        );
        let mut short = [7; 4095];
        assert!(rt; report(b"", &mut short).is_err());
        assert!(rt; short[0] == 7 && short[4094] == 7);
    }

    #[test]
    fn rivals(rt: HostRuntime) {
        assert!(rt; writes(challenge_text, b"\x00\x00\x00\x00\x00\x00", b"majority 0\n"));
        assert!(rt;
            writes(
                challenge_text,
                b"\x00\x01\x00\x01\x00\x01\x01\x00\x00\x00",
                b"refused 9 round 1\n",
            )
        );
        assert!(rt;
            writes(
                challenge_text,
                b"\x00\x01\x00\x01\x00\x02\x01\x00\x01\x00\x00\x02\x00\x00",
                b"refused 12 round 1\n",
            )
        );
        assert!(rt;
            writes(
                challenge_text,
                b"\x00\x01\x00\x01\x00\x01\x01\x00\x00\x01\xff",
                b"majority 1\n0 0\n",
            )
        );
        let mut short = [7; 4095];
        assert!(rt; challenge_text(b"", &mut short).is_err());
    }

    #[test]
    fn texts(rt: HostRuntime) {
        assert!(rt; report_of(b"\x00\x65").as_bytes() == b"refused 3 sheet 0\n".as_slice());
        assert!(rt;
            challenge_of(b"\x00\x00\x00\x00\x00\x00").as_bytes() == b"majority 0\n".as_slice()
        );
    }
}
