// The catalogue: a measure that takes the terms of its rows.
ghost use Rattle.measure.specs.Meanings.{catalogue_whole, catalogue};
ghost use Rattle.measure.specs.Table.{catalogue_lawful};

use crate::Measure;
use terms::Terms;

// Terms that the catalogue takes, and their parts.
struct Row {
    budget: u32,
    period: u32,
    parts: u32,
}

const ROWS: [Row; 10] = [
    Row {
        budget: 4,
        period: 20,
        parts: 200,
    },
    Row {
        budget: 10,
        period: 50,
        parts: 220,
    },
    Row {
        budget: 3,
        period: 100,
        parts: 30,
    },
    Row {
        budget: 7,
        period: 30,
        parts: 234,
    },
    Row {
        budget: 1,
        period: 3,
        parts: 334,
    },
    Row {
        budget: 25,
        period: 200,
        parts: 125,
    },
    Row {
        budget: 40,
        period: 1000,
        parts: 40,
    },
    Row {
        budget: 5,
        period: 7,
        parts: 715,
    },
    Row {
        budget: 1,
        period: 1_000_000,
        parts: 1,
    },
    Row {
        budget: 60,
        period: 240,
        parts: 250,
    },
];

#[derive(Clone, Copy, Debug)]
pub struct Catalogue;

impl Measure for Catalogue {
    ghost whole = { λ _. catalogue_whole };

    ghost price = { λ _. catalogue };

    ghost lawful = { λ _. catalogue_lawful };

    fn whole(&self) -> u32 {
        1_000
    }

    fn parts(&self, terms: Terms) -> Option<u32> {
        ROWS.iter()
            .find(|row| row.budget == terms.budget() && row.period == terms.period())
            .map(|row| row.parts)
    }
}
