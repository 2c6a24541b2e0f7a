// What is proved, by calls with empty bodies.
ghost use Rattle.std.specs.Prelude.{◌≤◌, length};
ghost use Rattle.report_laws.specs.Typed.{IsTyped};
ghost use Rattle.report_text.specs.Forms.{IsReport};
ghost use Rattle.report_text.specs.Lines.{report_text};
ghost use Rattle.report_text.specs.Reports.{Report};
ghost use Rattle.report_laws.specs.Room.{report_room};

/// The text of a report is no longer than its lines have room.
pub fn texts_have_room()
    ensures { (r : Report) → IsReport r → IsTyped r → length (report_text r) ≤ report_room r }
{}
