// How two states of one end compare.
use engine::{Connection, Session};

// What became of a state: nothing differs; the connection is over now and nothing else differs but fates; something else differs.
#[derive(Clone, Copy, Debug, PartialEq, Eq)]
pub(crate) enum Change {
    Same,
    Over,
    Changed,
}

// Whether nothing but the fates of the sessions differs, and whether the connection is over.
fn is_same_but_fates(a: &Connection, b: &Connection) -> bool {
    a.stage == b.stage
        && a.own == b.own
        && a.last == b.last
        && a.ping == b.ping
        && a.sessions
            .iter()
            .zip(&b.sessions)
            .all(|(x, y)| is_same_but_fate(x, y))
}

// Whether nothing but the fates of two sessions differs.
fn is_same_but_fate(x: &Session, y: &Session) -> bool {
    let outcome = y.outcome;
    Session { outcome, ..*x } == *y
}

pub(crate) fn compared(before: &Connection, after: &Connection) -> Change {
    if before == after {
        Change::Same
    } else if !before.over && after.over && is_same_but_fates(before, after) {
        Change::Over
    } else {
        Change::Changed
    }
}
