// How far a picture reaches.
ghost use Rattle.std.specs.Prelude.{◌≡◌, ◌≤◌, ◌+◌, max, All};
ghost use Rattle.lab_layout.specs.Laid.{IsIn, IsPointIn, IsCardIn, IsEchoIn};

use lab_picture::{Bounds, Card, Echo, Point};

/// How far a picture reaches to the right and down.
#[derive(Clone, Copy)]
pub(crate) struct Reach {
    pub(crate) wide: u64,
    pub(crate) high: u64,
}

/// The end of an edge, or what was reached where that is farther.
fn farther(reached: u64, start: u32, size: u32) -> u64
    ensures { result ≡ max reached (start + size) }
{
    let end = u64::from(start) + u64::from(size);
    if end > reached { end } else { reached }
}

impl Reach {
    /// As far as a box too.
    pub(crate) fn over(self, place: Bounds) -> Reach
        ensures wide { self.wide ≤ result.wide }
        ensures high { self.high ≤ result.high }
        ensures inside { IsIn result.wide result.high place }
    {
        Reach {
            wide: farther(self.wide, place.x, place.wide),
            high: farther(self.high, place.y, place.high),
        }
    }

    fn over_point(self, point: Point) -> Reach
        ensures wide { self.wide ≤ result.wide }
        ensures high { self.high ≤ result.high }
        ensures inside { IsPointIn result.wide result.high point }
    {
        Reach {
            wide: farther(self.wide, point.x, 0),
            high: farther(self.high, point.y, 0),
        }
    }

    fn over_echo(self, echo: &Option<Echo>) -> Reach
        ensures wide { self.wide ≤ result.wide }
        ensures high { self.high ≤ result.high }
        ensures inside { IsEchoIn result.wide result.high echo.now }
    {
        match echo {
            Some(echo) => self.over(echo.card.place),
            None => self,
        }
    }

    /// As far as all boxes too.
    pub(crate) fn over_all(self, places: &[Bounds]) -> Reach
        ensures wide { self.wide ≤ result.wide }
        ensures high { self.high ≤ result.high }
        ensures inside { All (IsIn result.wide result.high) places.now }
    {
        let mut reach = self;
        for place in places {
            reach = reach.over(*place);
        }
        reach
    }

    /// As far as all points too.
    pub(crate) fn over_points(self, points: &[Point]) -> Reach
        ensures wide { self.wide ≤ result.wide }
        ensures high { self.high ≤ result.high }
        ensures inside { All (IsPointIn result.wide result.high) points.now }
    {
        let mut reach = self;
        for point in points {
            reach = reach.over_point(*point);
        }
        reach
    }

    /// As far as all cards too.
    pub(crate) fn over_cards(self, cards: &[Card]) -> Reach
        ensures wide { self.wide ≤ result.wide }
        ensures high { self.high ≤ result.high }
        ensures inside { All (IsCardIn result.wide result.high) cards.now }
    {
        let mut reach = self;
        for card in cards {
            reach = reach.over(card.place);
        }
        reach
    }

    /// As far as all second cards too.
    pub(crate) fn over_echoes(self, echoes: &[Option<Echo>]) -> Reach
        ensures wide { self.wide ≤ result.wide }
        ensures high { self.high ≤ result.high }
        ensures inside { All (IsEchoIn result.wide result.high) echoes.now }
    {
        let mut reach = self;
        for echo in echoes {
            reach = reach.over_echo(echo);
        }
        reach
    }

    /// As far as everything in a picture too: its strip, its machines, its cards, and where experiments are listed.
    pub(crate) fn over_picture(
        self,
        strip: Bounds,
        cells: &[Bounds],
        cards: &[Card],
        echoes: &[Option<Echo>],
        entries: &[Point],
    ) -> Reach
        ensures strip { IsIn result.wide result.high strip }
        ensures cells { All (IsIn result.wide result.high) cells.now }
        ensures cards { All (IsCardIn result.wide result.high) cards.now }
        ensures echoes { All (IsEchoIn result.wide result.high) echoes.now }
        ensures entries { All (IsPointIn result.wide result.high) entries.now }
    {
        self.over(strip)
            .over_all(cells)
            .over_cards(cards)
            .over_echoes(echoes)
            .over_points(entries)
    }
}
