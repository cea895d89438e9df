// The tables of a case, which the writers are given.
use card::{Head, Rows};

// How many numbers stand in front of the slices.
const LEAD: usize = 9;

// A card's tables, and how long the buffer is that the card is written into.
#[derive(Clone, Copy)]
pub struct Tables<'a> {
    pub head: Head,
    pub rows: Rows<'a>,
    pub room: usize,
}

impl<'a> Tables<'a> {
    // Those in a case's numbers: the head, the lengths of the four slices and of the buffer, then the four slices; `None` where these are not
    // all there.
    pub fn in_case(numbers: &'a [u16]) -> Option<Tables<'a>> {
        let (lead, rest) = numbers.split_first_chunk::<LEAD>()?;
        let [
            version,
            signals,
            limit,
            scale,
            subnets,
            places,
            transitions,
            arcs,
            room,
        ] = *lead;
        let (subnets, rest) = rest.split_at_checked(usize::from(subnets))?;
        let (places, rest) = rest.split_at_checked(usize::from(places))?;
        let (transitions, rest) = rest.split_at_checked(usize::from(transitions))?;
        let (arcs, _rest) = rest.split_at_checked(usize::from(arcs))?;
        Some(Tables {
            head: Head {
                version,
                signals,
                limit,
                scale,
            },
            rows: Rows {
                subnets,
                places,
                transitions,
                arcs,
            },
            room: usize::from(room),
        })
    }
}
