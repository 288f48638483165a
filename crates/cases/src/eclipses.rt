// 003's Table 4: at each instant and point the Sun and the Moon stand together.
use super::report::{named, write};
use eclipse::answer::solar_eclipse;
use request::start::Start;
use sky_vectors::station::Point;
use std::io;

// "within the stated uncertainty of ±0.003° in the azimuth angle" (003, section 5.4.4).
const STATED: i64 = 300_000;

// A row of the table: its year as a name, the start in UT (year, month, day, hour, minute, second, fraction, UT1 minus UTC and delta-T, the last three in
// milliseconds), and longitude and latitude in 10⁻⁷ degree with the height.
struct Row {
    name: [u8; 4],
    start: [i64; 9],
    point: [i64; 3],
}

static TABLE_4: [Row; 7] = [
    Row {
        name: *b"2009",
        start: [2009, 7, 22, 2, 33, 0, 0, 0, 66_400],
        point: [1_433_617_000, 246_117_000, 0],
    },
    Row {
        name: *b"2008",
        start: [2008, 8, 1, 9, 47, 18, 0, 0, 65_800],
        point: [347_417_000, 811_133_000, 0],
    },
    Row {
        name: *b"2006",
        start: [2006, 3, 29, 10, 33, 18, 0, 0, 64_900],
        point: [228_867_000, 296_200_000, 0],
    },
    Row {
        name: *b"2005",
        start: [2005, 4, 8, 20, 15, 36, 0, 0, 64_800],
        point: [-1_234_817_000, -157_883_000, 0],
    },
    Row {
        name: *b"2002",
        start: [2002, 12, 4, 7, 38, 42, 0, 0, 64_400],
        point: [628_383_000, -405_283_000, 0],
    },
    Row {
        name: *b"2001",
        start: [2001, 6, 21, 11, 57, 48, 0, 0, 64_200],
        point: [9_867_000, -115_950_000, 0],
    },
    Row {
        name: *b"1981",
        start: [1981, 2, 4, 21, 57, 36, 0, 0, 51_500],
        point: [-1_459_033_000, -458_883_000, 0],
    },
];

fn is_eclipse(start: Start, point: Point) -> bool {
    match solar_eclipse(start, point) {
        Ok(seen) => seen.separation <= STATED,
        Err(_) => false,
    }
}

pub fn table_4(rt: &impl Print) -> io::Result<()> {
    write(rt, b"003 Table 4:")?;
    for row in &TABLE_4 {
        let holds = is_eclipse(Start::from(row.start), Point::from(row.point));
        named(rt, &row.name, holds)?;
    }
    write(rt, b"\n")
}
