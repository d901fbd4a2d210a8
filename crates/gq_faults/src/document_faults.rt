// All faults of a document: of its tables, of its counts and of its names.
ghost use Rattle.toml.specs.View.{table_view};
ghost use Rattle.gq_faults.specs.Documents.{document_faults};
ghost use Rattle.gq_faults.specs.Reported_faults.{ReportsOf};

use crate::counts::report_counts;
use crate::document_nodes::nodes_in;
use crate::document_walk::report_walk;
use crate::fault_lines::Reporter;
use crate::repeated_names::report_names;
use crate::report_error::ReportError;
use gq_output::counted::Counted;
use std::io::Write;
use toml::Table;

/// Reports all faults of a document: those of its tables; behind them what there is too much of, and each name that was seen before.
pub(crate) fn report_document<W: Write>(
    reporter: &Reporter<'_>,
    out: &mut Counted<W>,
    top: &Table,
) -> Result<(), ReportError>
    ensures { ReportsOf W.contents reporter.now.path.now (document_faults (table_view top.now)) out.old out.new result }
{
    let nodes = nodes_in(reporter.alloc(), top)?;
    report_walk(reporter, out, top, nodes.as_slice())?;
    report_counts(reporter, out, top, nodes.as_slice())?;
    report_names(reporter, out, top, nodes.as_slice())
}
