//! Texts that are no keys, and keys whose lists do not agree, at degree 3.

#![tactic(auto)]

#[cfg(test)]
mod tests {
    use keytext::confirm::{confirm_h, confirm_v};
    use keytext::key::read_key;
    use keytext::line::{read_numbers, read_trits};
    use keytext::malformed::{Line, Malformed};
    use refusal::Refusal;

    fn trits(text: &[u8]) -> Result<(), Malformed> {
        let mut out = [0u16; 3];
        read_trits(Line::G, text, &mut out)
    }

    // As `trits`, of the other reader.
    fn numbers(text: &[u8]) -> Result<(), Malformed> {
        let mut out = [0u16; 3];
        read_numbers(Line::H, text, &mut out)
    }

    fn key(text: &[u8]) -> Result<(), Malformed> {
        let mut g = [0u16; 3];
        let mut f = [0u16; 3];
        let mut v = [0u16; 3];
        let mut h = [0u16; 3];
        read_key(text, &mut g, &mut f, &mut v, &mut h)
    }

    #[test]
    fn lines_of_trits(rt: HostRuntime) {
        let line = Line::G;
        assert_eq!(rt; trits(b"g 120"), Ok(()));
        assert_eq!(rt; trits(b"g 12"), Err(Malformed::WrongCount { line }));
        assert_eq!(rt; trits(b"g 1200"), Err(Malformed::WrongCount { line }));
        assert_eq!(rt;
            trits(b"g 130"),
            Err(Malformed::OutOfRange { line, place: 2 })
        );
        assert_eq!(rt;
            trits(b"g 1x0"),
            Err(Malformed::NotANumber { line, place: 2 })
        );
        assert_eq!(rt;
            trits(b"g  12"),
            Err(Malformed::NotANumber { line, place: 1 })
        );
        assert_eq!(rt; trits(b"f 120"), Err(Malformed::WrongLabel { line }));
        assert_eq!(rt; trits(b"g120"), Err(Malformed::WrongLabel { line }));
    }

    #[test]
    fn lines_of_numbers(rt: HostRuntime) {
        let line = Line::H;
        assert_eq!(rt; numbers(b"h 0 4590 12"), Ok(()));
        assert_eq!(rt; numbers(b"h 0 4590"), Err(Malformed::WrongCount { line }));
        assert_eq!(rt;
            numbers(b"h 0 4590 12 1"),
            Err(Malformed::WrongCount { line })
        );
        assert_eq!(rt;
            numbers(b"h 0 4591 12"),
            Err(Malformed::OutOfRange { line, place: 2 })
        );
        assert_eq!(rt;
            numbers(b"h 0 99999 12"),
            Err(Malformed::OutOfRange { line, place: 2 })
        );
        assert_eq!(rt;
            numbers(b"h 0 012 12"),
            Err(Malformed::NotANumber { line, place: 2 })
        );
        assert_eq!(rt;
            numbers(b"h 0  12 12"),
            Err(Malformed::NotANumber { line, place: 2 })
        );
        assert_eq!(rt;
            numbers(b"h 0 +1 12"),
            Err(Malformed::NotANumber { line, place: 2 })
        );
        assert_eq!(rt; numbers(b"h 0 1 12 "), Err(Malformed::WrongCount { line }));
    }

    #[test]
    fn whole_keys(rt: HostRuntime) {
        assert_eq!(rt; key(b"g 120\nf 100\nv 022\nh 3061 1530 0\n"), Ok(()));
        assert_eq!(rt; key(b"g 120\nf 100\nv 022\nh 3061 1530 0"), Ok(()));
        assert_eq!(rt; key(b""), Err(Malformed::Missing { line: Line::G }));
        assert_eq!(rt;
            key(b"g 120\nf 100\nv 022\n"),
            Err(Malformed::Missing { line: Line::H })
        );
        assert_eq!(rt;
            key(b"g 120\nv 022\nf 100\nh 3061 1530 0\n"),
            Err(Malformed::WrongLabel { line: Line::F })
        );
        assert_eq!(rt;
            key(b"g 120\nf 100\nv 022\nh 3061 1530 0\n\n"),
            Err(Malformed::TrailingText)
        );
    }

    #[test]
    fn agreements(rt: HostRuntime) {
        let g = [1, 2, 0];
        let f = [1, 0, 0];
        assert_eq!(rt; confirm_h(3, &g, &f, &[3061, 1530, 0]), Ok(3));
        assert_eq!(rt; confirm_h(3, &g, &f, &[3061, 1531, 0]), Ok(2));
        assert_eq!(rt; confirm_v(3, &g, &[0, 2, 2]), Ok(3));
        assert_eq!(rt; confirm_v(3, &g, &[0, 2, 1]), Ok(0));
        assert_eq!(rt;
            confirm_h(3, &g, &[3, 0, 0], &[0, 0, 0]),
            Err(Refusal::NotACode { entry: 0 })
        );
        assert_eq!(rt; confirm_h(1278, &g, &f, &g), Err(Refusal::Degree));
        assert_eq!(rt; confirm_v(3, &g, &[0, 2]), Err(Refusal::Length));
    }
}
