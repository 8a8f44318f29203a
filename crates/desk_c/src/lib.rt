// The functions exported to C: each calls the function of that name of `desk`, and promises what that one promises.
#![tactic(auto)]

ghost use Rattle.model.specs.declared.Rule.TheVariants.{Sum, Larger};
ghost use Rattle.desk.specs.Desk.{settings_draft_of_bytes, marked_draft_of_bytes};
ghost use Rattle.desk.specs.Desk.{request_draft_of_bytes, Exported, PlanRead};

// Writes a settings sheet of kind 1: every disk starts at the sum of its delay and load.
#[unsafe(no_mangle)]
pub extern "C" fn rp_write_settings(
    unit: u32,
    tenancy: u32,
    costs: &[u8],
    loads: &[u8],
    delays: &[u8],
    out: &mut [u8],
) -> u64
    ensures { Exported (settings_draft_of_bytes Sum unit tenancy costs.now loads.now delays.now)
        out.old result out.new }
{
    desk::rp_write_settings(unit, tenancy, costs, loads, delays, out)
}

// Writes a settings sheet of kind 5: every disk starts at the larger of its delay and load.
#[unsafe(no_mangle)]
pub extern "C" fn rp_write_settings_overlap(
    unit: u32,
    tenancy: u32,
    costs: &[u8],
    loads: &[u8],
    delays: &[u8],
    out: &mut [u8],
) -> u64
    ensures { Exported (settings_draft_of_bytes Larger unit tenancy costs.now loads.now delays.now)
        out.old result out.new }
{
    desk::rp_write_settings_overlap(unit, tenancy, costs, loads, delays, out)
}

// Writes a settings sheet of kind 6: the start rule, 1 for the sum of delay and load and 2 for the larger; four bytes for each cost, load,
// delay and mark, 0 in use and 1 out.
#[unsafe(no_mangle)]
pub extern "C" fn rp_write_settings_marked(
    unit: u32,
    tenancy: u32,
    rule: u32,
    costs: &[u8],
    loads: &[u8],
    delays: &[u8],
    marks: &[u8],
    out: &mut [u8],
) -> u64
    ensures { Exported
        (marked_draft_of_bytes unit tenancy rule costs.now loads.now delays.now marks.now)
        out.old result out.new }
{
    desk::rp_write_settings_marked(unit, tenancy, rule, costs, loads, delays, marks, out)
}

// Writes a read request of kind 2 or 4, with the age of the settings, for a unit of so many disks: eight bytes for each block, bit d
// standing for disk d.
#[unsafe(no_mangle)]
pub extern "C" fn rp_write_request(
    kind: u32,
    unit: u32,
    tenancy: u32,
    age: u32,
    disks: u32,
    copies: &[u8],
    out: &mut [u8],
) -> u64
    ensures { Exported (request_draft_of_bytes kind unit tenancy age disks copies.now) out.old result
        out.new }
{
    desk::rp_write_request(kind, unit, tenancy, age, disks, copies, out)
}

// Reads a plan sheet: a byte for each block's disk, two for each block of the short set.
#[unsafe(no_mangle)]
pub extern "C" fn rp_read_plan(
    unit: u32,
    tenancy: u32,
    sheet: &[u8],
    disks: &mut [u8],
    short: &mut [u8],
) -> u64
    ensures { PlanRead unit tenancy sheet.now disks.old short.old result
        disks.new short.new }
{
    desk::rp_read_plan(unit, tenancy, sheet, disks, short)
}
