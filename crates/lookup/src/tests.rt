// `find_among` on instants that are kept in another way than a list of u64. What is expected is what
// tests/lookup_vectors.py answers on these lists.
use crate::{Found, Instants, MOST_INSTANTS, find_among};
use base::refusal::Refusal;

// Instants of four bytes each, in the machine's order.
#[derive(Clone, Copy)]
struct Short<'a> {
    instants: &'a [u32],
}

impl<'a> Instants for Short<'a> {
    ghost items = { λ s. s.instants.now };

    fn count(&self) -> usize {
        self.instants.len()
    }

    fn instant(&self, place: usize) -> u64 {
        match self.instants.get(place) {
            Some(instant) => u64::from(*instant),
            None => 0,
        }
    }
}

#[test]
fn finds_the_last_at_most(rt: HostRuntime) {
    let list: &[u64] = &[10, 20, 30, 30, 50];
    let short = Short {
        instants: &[10, 20, 30, 30, 50],
    };
    for (wanted, place, looks) in [
        (9, None, 3),
        (10, Some(0), 3),
        (29, Some(1), 2),
        (30, Some(3), 3),
        (49, Some(3), 3),
        (u64::MAX, Some(4), 2),
    ] {
        let found = Ok(Found { place, looks });
        assert_eq!(rt; find_among(&list, wanted), found, "{wanted} in a list");
        assert_eq!(rt;
            find_among(&short, wanted),
            found,
            "{wanted} in short instants"
        );
    }
}

#[test]
fn refuses_too_many(rt: HostRuntime) {
    let space = [7u32; 100_001];
    let instants: &[u32] = &space;
    let most = Short {
        instants: &instants[..MOST_INSTANTS],
    };
    let last = Found {
        place: Some(99_999),
        looks: 16,
    };
    assert_eq!(rt; find_among(&most, 7), Ok(last));
    let more = Short { instants };
    assert_eq!(rt; find_among(&more, 7), Err(Refusal::ListTooLong));
}
