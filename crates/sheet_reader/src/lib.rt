// The whole sheet, and the choice of two starts. For every byte slice: the sheet, or the one refusal and its place.
#![tactic(auto)]

ghost use Rattle.std.specs.Prelude.{length};
ghost use Rattle.sheet_types.specs.Reading.{read_sheet, read_choice};
ghost use Rattle.sheet_reader.specs.SheetFound.{SheetFound};

use refusals::{Refusal, Refused};
use sheet_types::{Configuration, Sheet};

// The sheet that the bytes are, or the first refusal.
pub fn read_sheet(s: &[u8]) -> Result<Sheet, Refused>
    ensures { SheetFound (length s.now) (read_sheet s.now) result }
{
    let facts = sheet_fields::facts_at(s, 0)?;
    let mut rules = [0u16; 64];
    let rule_count = rule_reader::rules_at(s, facts.value, facts.next, &mut rules)?;
    let nodes = node_reader::nodes_at(s, facts.value, &rules, rule_count.value, rule_count.next)?;
    let table = nodes.table;
    let mut starts = [Configuration::EMPTY; 16];
    let start_count = start_reader::starts_at(
        s,
        facts.value,
        &rules,
        rule_count.value,
        &table,
        nodes.count,
        nodes.next,
        &mut starts,
    )?;
    if start_count.next < s.len() {
        return Err(Refusal::BytesLeft.at(start_count.next));
    }
    Ok(Sheet {
        facts: facts.value,
        rule_count: rule_count.value,
        node_count: nodes.count,
        start_count: start_count.value,
        rules,
        table,
        starts,
    })
}

// The sheet with a left and a right start chosen on it, or the first refusal. What read_sheet gave is handed back as it is, so that the
// sheet is not moved once more.
pub fn read_choice(s: &[u8], left: usize, right: usize) -> Result<Sheet, Refused>
    ensures { SheetFound (length s.now) (read_choice s.now left right) result }
{
    let read = read_sheet(s);
    let Ok(sheet) = &read else {
        return read;
    };
    let starts = usize::from(sheet.start_count);
    if starts <= left {
        return Err(Refusal::AbsentStart.at(0));
    }
    if starts <= right {
        return Err(Refusal::AbsentStart.at(1));
    }
    read
}
