#![tactic(auto)]

// Worked examples of exact numbers, as tests: a crate of their own, since a crate with tests is proved twice.
#[cfg(test)]
mod tests {
    use number_text::read_number;
    use numbers::{Five, Fraction, Number, Parts, Root};
    use std::test::Fail;

    fn product<N: Number + Copy>(a: &str, b: &str) -> Option<Parts> {
        let x: N = read_number(a).ok()?;
        let y: N = read_number(b).ok()?;
        let z = x.times(y).ok()?;
        Some(z.row())
    }

    fn is_positive<N: Number + Copy>(text: &str) -> Option<bool> {
        let x: N = read_number(text).ok()?;
        Some(x.is_positive())
    }

    #[test]
    fn largest_product(rt: HostRuntime) -> Result<(), Fail> {
        let held = product::<Fraction>("65535", "32768").ok_or("refused")?;
        assert_eq!(rt; held.p, 2147450880);
        assert!(rt; product::<Fraction>("65536", "32768").is_none());
        Ok(())
    }

    #[test]
    fn golden_ratio_squared(rt: HostRuntime) -> Result<(), Fail> {
        let square = product::<Root<Five>>("(1+1√5)/2", "(1+1√5)/2").ok_or("refused")?;
        assert_eq!(rt; square, Parts { p: 3, q: 1, m: 2 });
        Ok(())
    }

    #[test]
    fn signs(rt: HostRuntime) -> Result<(), Fail> {
        assert!(rt; is_positive::<Root<Five>>("(3-1√5)/2").ok_or("unread")?);
        assert!(rt; !is_positive::<Root<Five>>("(1-1√5)/2").ok_or("unread")?);
        Ok(())
    }
}
