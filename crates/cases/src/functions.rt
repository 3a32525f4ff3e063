// Which functions there are: groups, each with functions of one crate, or of a session's small parts. A further group is a
// file with a table and the code that runs a row of it, and a line in each function here.
use casebook::answer::Answer;
use casebook::case::Given;
use casebook::table::find;
use part_probes::{part_cases, receiving_cases};
use probes::{double_cases, octet_cases, packet_cases, wire_cases};
use radio_probes::radio_cases;

// A function by its row in the table of its group.
#[derive(Clone, Copy)]
pub(crate) enum Function {
    Octet(usize),
    Double(usize),
    Wire(usize),
    Packet(usize),
    Part(usize),
    Receiving(usize),
    Radio(usize),
}

// The function of this name that is given so many numbers, and octets or none.
pub(crate) fn named(name: &[u8], given: Given) -> Option<Function> {
    let row = |table: &[u8]| find(table, name, given.count, given.octets.is_some());
    row(&octet_cases::TABLE)
        .map(|row| Function::Octet(row))
        .or_else(|| row(&double_cases::TABLE).map(|row| Function::Double(row)))
        .or_else(|| row(&wire_cases::TABLE).map(|row| Function::Wire(row)))
        .or_else(|| row(&packet_cases::TABLE).map(|row| Function::Packet(row)))
        .or_else(|| row(&part_cases::TABLE).map(|row| Function::Part(row)))
        .or_else(|| row(&receiving_cases::TABLE).map(|row| Function::Receiving(row)))
        .or_else(|| row(&radio_cases::TABLE).map(|row| Function::Radio(row)))
}

// p is the octets that the case gives.
pub(crate) fn answer(f: Function, n: [u64; 6], p: &mut [u8]) -> Answer {
    match f {
        Function::Octet(row) => octet_cases::answer(row, n, p),
        Function::Double(row) => double_cases::answer(row, n),
        Function::Wire(row) => wire_cases::answer(row, n),
        Function::Packet(row) => packet_cases::answer(row, n, p),
        Function::Part(row) => part_cases::answer(row, n, p),
        Function::Receiving(row) => receiving_cases::answer(row, n, p),
        Function::Radio(row) => radio_cases::answer(row, n, p),
    }
}
