// What was told and found, as one report.
ghost use Rattle.std.specs.Prelude.{◌≡◌};
ghost use Rattle.report_laws.specs.Typed.{IsTyped};
ghost use Rattle.report_text.specs.Forms.{IsReport};
ghost use Rattle.compile_report.specs.Found.{joined_report};

use crate::finding::Found;
use crate::telling::Told;
use path_enum::Bounded;
use report_laws::is_typed;
use wcc_base::Items;
use wcc_report::Report;

pub fn joined(told: Told, found: Found) -> Report
    requires { IsReport (joined_report told found) }
    ensures report { result ≡ joined_report told found }
    ensures typed { IsTyped result }
{
    let Told { lines, claims } = told;
    let Found { bounded, shares } = found;
    let Bounded {
        cert,
        kind,
        columns,
    } = bounded;
    let report = Report {
        version: 2,
        kind,
        names: Items::new(lines),
        claims,
        columns,
        cert,
        shares: Items::new(shares),
    };
    is_typed(&report);
    report
}
