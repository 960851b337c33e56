// The book's descriptions of the items of word 72, as its tables 17 to 20 print them: a line for each item of kind 0, then of kinds 1, 2 and 3. Of
// several rows of one value what they share is taken.
#![tactic(auto)]

ghost use Rattle.std.specs.Prelude.{◌≡◌};
ghost use Rattle.command.specs.Text.{Adds};
ghost use Rattle.csv_fields.specs.Fields.{csv_field};
ghost use Rattle.word72_descriptions.specs.Descriptions.{first_line, line_of, description};

const DESCRIPTIONS: [u8; 3706] = *b"\
Euler Parameter 1 (EPA 1)
Euler Parameter 2 (EPA 2)
Euler Parameter 3 (EPA 3)
Euler Parameter 4 (EPA 4)
Theta BX
Theta BY
Theta BZ
last SV clock update
Gyro Select Data
Zero Fill
SV Clock Drift
the time of the last ETM+On Time
Zero Fill
X - Position
Y - Position
Z - Position
X - Velocity
Y - Velocity
Z - Velocity
Black Body Temperature (Isolated)
CFPA Heater Current
Calibration Shutter Flag Temperature
Backup Shutter Flag Temperature
Black Body Temperature (Control)
Baffle Temperature (Heater)
CFPA Control Temperature
Mux 1 or 2 Electronic Temperature (after TDF RAM Patch applied) or Mux 1 Electronics Temperature (default, no patch)
Mux 1 or 2 Power Supply Temperature (after TDF RAM Patch applied) or Mux 1 Power Supply Temperature (default, no patch)
Cal Lamp 2 Current (after TDF RAM Patch applied) or Mux 2 Electronics Temperature (default, no patch)
the time of the last ETM+Off Time
Zero Fill
Spacecraft ID and time code
Bits 0-8 = Zeroes
Zero Fill
ADS-X Temp 1
ADS-Y Temp 2
ADS-Z Temp 3
A/D Temp - ADS Electronics
A/D Ground Reference
Zero Fill
Euler Parameter 1 (EPA 1)
Euler Parameter 2 (EPA 2)
Euler Parameter 3 (EPA 3)
Euler Parameter 4 (EPA 4)
X-Position
Y-Position
Z-Position
X-Velocity
Y-Velocity
Z-Velocity
Zero Fill
Black Body Temperature (Isolated)
CFPA Heater Current
Calibration Shutter Flag Temperature
Backup Shutter Flag Temperature
Black Body Temperature (Control)
Baffle Temperature (Heater)
CFPA Control Temperature
Cal Lamp 1 Current (after TDF Patch applied) or Mux 2 Power Supply Temperature (default, no patch)
Serial Word \"J\"
Serial Word \"K\"
Zero Fill
Major frame identifier 1
Zero Fill
ADS-X Temp1
ADS -Y Temp2
ADS-z Temp 3
A/D Temp - ADS Electronics
A/D Ground Reference
Zero Fill
Euler Parameter 1 (EPA 1)
Euler Parameter 2 (EPA 2)
Euler Parameter 3 (EPA 3)
Euler Parameter 4 (EPA 4)
MEM Heat Sink Power Supply #2
Silicon Focal-Plane Assembly Temp.
Zero Fill
Baffle Temperature (Tube)
MEM Heat Sink Power Supply #1
Cold FPA Monitor Temperature
Baffle Temperature (Support)
Calibration Lamp Housing Temperature
Scan-Line Corrector Temperature
Calibration Shutter Hub Temperature
Ambient Preamp Temperature (High Channels)
Band 4 Post Amp Temperature
Spare Zero Fill
Band 7 Preamp Temperature
Ambient Preamp Temperature (Low Channels)
Serial Word \"A\"
Serial Word \"B\"
Serial Word \"C\"
Serial Word \"D\"
Serial Word \"E\"
Serial Word \"F\"
Serial Word \"G\"
Serial Word \"H\"
Serial Word \"I\"
Primary Mirror Temperature
Primary Mirror Mask Temperature
Secondary Mirror Temperature
Secondary Mirror Mask Temperature
Telescope Housing Temperature
Telescope Baseplate Temperature
Pan Band Post Amplifier Temperature
Zero Fill
X-Position
Y-Position
Z-Position
X-Velocity
Y-Velocity
Z-Velocity
Black body Temperature (Isolated)
CFPA Heater Current
Calibration Shutter Flag Temperature
Backup Shutter Flag Temperature
Black Body Temperature (Control)
Baffle Temperature (Heater)
CFPA Control Temperature
Serial Word \"L\"
Serial Word \"M\"
Serial Word \"N\"
Serial Word \"P\"
Zero Fill
Major frame identifier 2
Zero Fill
ADS-X Temp 1
ADS-Y Temp 2
ADS-Z Temp 3
A/D Temp - ADS Electronics
A/D Ground Reference
Zero Fill
Euler Parameter 1 (EPA 1)
Euler Parameter 2 (EPA 2)
Euler Parameter 3 (EPA 3)
Euler Parameter 4 (EPA 4)
X-Position
Y-Position
Z-Position
X-Velocity
Y-Velocity
Z-Velocity
Zero Fill
Black Body Temperature (Isolated)
CFPA Heater Current
Calibration Shutter Flag
Backup Shutter Flag Temperature
Black Body temperature (Control)
Baffle Temperature
CFPA Control Temperature
Serial Word \"Q\"
Serial Word \"R\"
Serial Word \"S\"
Spacecraft CPUMODE
Zero Fill
Major frame identifier 3
Zero Fill
ADS-X Temp 1
ADS-Y Temp 2
ADS-Z Temp 3
A/D Temp - ADS Electronics
A/D Ground Reference
Zero Fill
";

// No kind has more than 62 items, and the table ends before this line.
const LAST_ITEM: u64 = 61;

const NO_LINE: usize = 163;

// The description of an item of a kind, as a field; empty where the table has no such line.
pub fn put_description(out: &mut [u8], at: usize, kind: u64, item: u64) -> usize
    ensures { Adds out.old at (csv_field (description kind item)) out.new result }
{
    let table = &DESCRIPTIONS;
    csv_fields::put_csv_field(out, at, command::line(table, line_of(kind, item)))
}

// The line of an item's description.
fn line_of(kind: u64, item: u64) -> usize
    ensures { result ≡ line_of kind item }
{
    if LAST_ITEM < item {
        return NO_LINE;
    }
    first_line(kind) + item as usize
}

// The line of a kind's first item.
fn first_line(kind: u64) -> usize
    ensures { result ≡ first_line kind }
{
    match kind {
        0 => 0,
        1 => 40,
        2 => 70,
        3 => 132,
        _ => NO_LINE,
    }
}
