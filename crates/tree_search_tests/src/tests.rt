use extent::entry::Entry;
use extent::interval::Interval;
use tree_search::query::{Holding, Meeting};
use tree_search::view::View;

fn span(first: u16, last: u16, code: u16) -> Entry<Interval> {
    Entry {
        extent: Interval { first, last },
        code,
    }
}

/// A view of these rows.
fn view<'a, 'b>(places: &'a [Entry<Interval>], counts: &'b [u8]) -> View<'a, 'b, Interval> {
    View { places, counts }
}

/// A root in row 0 over the leaves in rows 1 and 2.
fn two_levels() -> [Entry<Interval>; 24] {
    let mut places = [span(0, 65535, 9); 24];
    places[0] = span(0, 5, 2);
    places[1] = span(4, 9, 1);
    places[8] = span(4, 6, 40);
    places[9] = span(5, 9, 41);
    places[16] = span(0, 0, 30);
    places[17] = span(2, 5, 31);
    places[18] = span(3, 3, 32);
    places
}

#[test]
fn finds_in_order_of_the_walk(rt: HostRuntime) {
    let places = two_levels();
    let mut list = [7u16; 6];
    let frames = Interval { first: 3, last: 4 };
    let n = view(&places, &[2, 2, 3]).look_up(1, 0, &Meeting(&frames), &mut list);
    assert_eq!(rt; n, 3);
    assert_eq!(rt; list, [31, 32, 40, 7, 7, 7]);
}

#[test]
fn finds_at_a_spot(rt: HostRuntime) {
    let places = two_levels();
    let mut list = [7u16; 6];
    let n = view(&places, &[2, 2, 3]).look_up(1, 0, &Holding(&5), &mut list);
    assert_eq!(rt; n, 3);
    assert_eq!(rt; list, [31, 40, 41, 7, 7, 7]);
}

#[test]
fn fills_a_short_list(rt: HostRuntime) {
    let places = two_levels();
    let mut list = [7u16; 2];
    let n = view(&places, &[2, 2, 3]).look_up(1, 0, &Holding(&5), &mut list);
    assert_eq!(rt; n, 2);
    assert_eq!(rt; list, [31, 40]);
}

#[test]
fn passes_by_what_the_root_does_not_hold(rt: HostRuntime) {
    let mut places = two_levels();
    places[8] = span(0, 65535, 40);
    let mut list = [7u16; 2];
    let n = view(&places, &[2, 2, 3]).look_up(1, 0, &Holding(&10), &mut list);
    assert_eq!(rt; n, 0);
    assert_eq!(rt; list, [7, 7]);
}

#[test]
fn reads_no_row_past_the_end(rt: HostRuntime) {
    let places = two_levels();
    assert_eq!(rt; view(&places, &[2, 2, 3, 8]).entries(3).len(), 0);
    assert_eq!(rt; view(&places, &[2, 2, 200]).entries(2).len(), 8);
    assert_eq!(rt; view(&places, &[2, 2]).entries(2).len(), 0);
    assert_eq!(rt;
        view(&places, &[2, 2]).entries(18446744073709551615).len(),
        0
    );
}

#[test]
fn ends_where_rows_lead_in_a_ring(rt: HostRuntime) {
    let places = [span(0, 9, 0); 8];
    let mut list = [7u16; 20];
    let n = view(&places, &[2]).look_up(3, 0, &Holding(&5), &mut list);
    assert_eq!(rt; n, 16);
    assert_eq!(rt; list[15], 0);
    assert_eq!(rt; list[16], 7);
}
