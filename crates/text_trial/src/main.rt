// Tries the texts of keys, codes, temperatures and records on both sides of every range.
// Each line has a text, the value that it reads as and the text that is written of this value; or the number of the refusal.
#![tactic(auto)]

use keys::{CodeKey, Reason, VehicleKey};
use std::io;
use std::str::from_utf8;
use text::{
    Coolant, FaultRecord, FromText, TextRefusal, TroubleCode, VehicleRecord,
    vehicle_key_from_numbers, write_code, write_code_key, write_vehicle_key,
};

const CODES: &[&str] = &[
    "P0000", "C0000", "B0000", "U0000", "P3FFF", "U3FFF", "C1234", "P4000", "PF000", "A0000",
    "p0301", "P030f", "P030G", "P030", "P03010", "",
];

const CODE_KEYS: &[&str] = &[
    "0000:P0000",
    "FFFF:U3FFF",
    "07E8:P0301",
    "07e8:P0301",
    "07E8;P0301",
    "07E8 P0301",
    "7E8:P0301",
    "007E8:P0301",
    "07E8:P4000",
    "07G8:P0301",
    "",
];

const VEHICLE_KEYS: &[&str] = &[
    "00000000000000000",
    "ZZZZZZZZZZZZZZZZZ",
    "00000000Z0000000A",
    "1HGCM82633A004352",
    "I0000000Z0000000A",
    "00000000O0000000A",
    "00000000Z0000000Q",
    "HJNPR000000000000",
    "00000000z0000000A",
    "00000000Z000000A",
    "00000000Z00000000A",
    "00000000Z 000000A",
    "",
];

const VEHICLE_NUMBERS: [(u64, u64); 6] = [
    (35, 10),
    (18, 0),
    (101_559_956_668_415, 2_821_109_907_455),
    (101_559_956_668_416, 0),
    (0, 2_821_109_907_456),
    (0, 26),
];

const DEGREES: [i16; 8] = [-32_768, -41, -40, -1, 0, 215, 216, 32_767];

const FAULTS: &[&str] = &[
    "0 0 0 0",
    "255 65535 65535 215",
    "47 3 3000 -12",
    "47 4 6400 90",
    "256 0 0 0",
    "0 65536 0 0",
    "0 0 65536 0",
    "0 0 0 216",
    "0 0 0 -40",
    "0 0 0 -41",
    "0 0 0 -0",
    "0 0 0 --1",
    "0 0 0 -01",
    "0 0 0 +1",
    "-1 0 0 0",
    "00 0 0 0",
    "01 0 0 0",
    "0 0 0",
    "0 0 0 0 0",
    "0  0 0 0",
    " 0 0 0 0",
    "0 0 0 0 ",
    "0 0 0 ",
    "A 0 0 0",
    "",
];

const VEHICLE_RECORDS: &[&str] = &[
    "0 0",
    "4294967295 4294967295",
    "4294967296 0",
    "0 4294967296",
    "99999999999999999999999 0",
    "120000 7",
    "120000",
    "120000 ",
    "120000 7 0",
];

fn main(rt: HostRuntime) -> io::Result<()> {
    try_texts(&rt, CODES, |text, code| print_code(&rt, text, code))?;
    try_texts(&rt, CODE_KEYS, |text, key| print_code_key(&rt, text, key))?;
    try_texts(&rt, VEHICLE_KEYS, |_, key| print_vehicle_key(&rt, key))?;
    try_texts(&rt, FAULTS, |text, fault| print_fault(&rt, text, fault))?;
    try_texts(
        &rt,
        VEHICLE_RECORDS,
        |text, vehicle| print_vehicle_record(&rt, text, vehicle),
    )?;
    for (first, second) in VEHICLE_NUMBERS {
        try_vehicle_numbers(&rt, first, second)?;
    }
    for degrees in DEGREES {
        try_degrees(&rt, degrees)?;
    }
    Ok(())
}

// Tries each text as that of a value, and prints what was read.
fn try_texts<V: FromText, F: Fn(&str, V) -> io::Result<()>>(
    rt: &impl Print,
    texts: &[&str],
    print: F,
) -> io::Result<()>
    requires { F.IsAlwaysCallable print }
{
    for text in texts {
        match V::read(text.as_bytes()) {
            Ok(value) => print(text, value)?,
            Err(refusal) => print_refusal(rt, text, refusal)?,
        }
    }
    Ok(())
}

fn try_vehicle_numbers(rt: &impl Print, first: u64, second: u64) -> io::Result<()> {
    match vehicle_key_from_numbers(first, second) {
        Ok(key) => print_vehicle_key(rt, key),
        Err(refusal) => { println!(rt; "{first} {second} no {}", refusal.number()) }
    }
}

fn try_degrees(rt: &impl Print, degrees: i16) -> io::Result<()> {
    match Coolant::from_celsius(degrees) {
        Some(coolant) => { println!(rt; "{degrees} {} {coolant}", coolant.raw) }
        None => println!(rt; "{degrees} none"),
    }
}

fn print_code(rt: &impl Print, text: &str, code: TroubleCode) -> io::Result<()> {
    println!(rt; "'{text}' {} {}", code.bits, shown(&write_code(code.bits)))
}

fn print_code_key(rt: &impl Print, text: &str, key: CodeKey) -> io::Result<()> {
    println!(rt;
        "'{text}' {} {} {}",
        key.unit,
        key.code,
        shown(&write_code_key(key))
    )
}

fn print_vehicle_key(rt: &impl Print, key: VehicleKey) -> io::Result<()> {
    println!(rt;
        "{} {} {}",
        key.first,
        key.second,
        shown(&write_vehicle_key(key))
    )
}

fn print_fault(rt: &impl Print, text: &str, fault: FaultRecord) -> io::Result<()> {
    println!(rt; "'{text}' {} {fault}", fault.coolant.raw)
}

fn print_vehicle_record(rt: &impl Print, text: &str, vehicle: VehicleRecord) -> io::Result<()> {
    println!(rt; "'{text}' {vehicle}")
}

fn print_refusal(rt: &impl Print, text: &str, refusal: TextRefusal) -> io::Result<()> {
    println!(rt; "'{text}' no {}", refusal.number())
}

// The text that the bytes are.
fn shown(bytes: &[u8]) -> &str {
    from_utf8(bytes).unwrap_or("no text")
}
