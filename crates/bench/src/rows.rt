// Rows on a card that is loaded once, one after another, for the benchmark.
use runners::State;
use runners::flat_runner::flat_net;
use runners::fresh::fresh;
use runners::nets::card_net;

// The markings as one number.
fn sum(state: State) -> u64 {
    let markings = state.markings;
    let mut n = 0;
    for marking in markings {
        n = (n * 31 + u64::from(marking)) % 4294967291;
    }
    n
}

// The rows on the flat card, and how the markings end. A refused card has none.
#[unsafe(no_mangle)]
pub extern "C" fn flat_rows(card: &[u8], rows: &[u16]) -> u64 {
    let Ok(net) = flat_net(card) else {
        return 0;
    };
    let Ok(first) = fresh(card) else {
        return 0;
    };
    sum(net.rows(&[0], first.state, rows))
}

// The rows on the card's own subnets, visited in this order, and how the markings end. A refused card has none.
#[unsafe(no_mangle)]
pub extern "C" fn subnet_rows(card: &[u8], order: &[u16], rows: &[u16]) -> u64 {
    let Ok(net) = card_net(card) else {
        return 0;
    };
    let Ok(first) = fresh(card) else {
        return 0;
    };
    sum(net.rows(order, first.state, rows))
}
