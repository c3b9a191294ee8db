//! Tasks by name. What isn't told is the narrow limit, lenient marks, or that overviews are opaque.
use nntp_check::{Limit, Marks, Overviews, Task};

pub(crate) const CHECK: Task = Task::Check {
    limit: Limit::Narrow,
    marks: Marks::Lenient,
    overviews: Overviews::Opaque,
};

pub(crate) const CHECK_STRICTLY: Task = Task::Check {
    limit: Limit::Narrow,
    marks: Marks::Strict,
    overviews: Overviews::Opaque,
};

pub(crate) const CHECK_WIDE: Task = Task::Check {
    limit: Limit::Wide,
    marks: Marks::Lenient,
    overviews: Overviews::Opaque,
};

pub(crate) const CHECK_WIDE_AND_STRICT: Task = Task::Check {
    limit: Limit::Wide,
    marks: Marks::Strict,
    overviews: Overviews::Opaque,
};

pub(crate) const VERIFY: Task = Task::Verify {
    marks: Marks::Lenient,
    overviews: Overviews::Opaque,
};

pub(crate) const VERIFY_STRICTLY: Task = Task::Verify {
    marks: Marks::Strict,
    overviews: Overviews::Opaque,
};

pub(crate) const EXPLAIN: Task = Task::Explain {
    limit: Limit::Narrow,
    marks: Marks::Lenient,
    overviews: Overviews::Opaque,
};

pub(crate) const EXPLAIN_STRICTLY: Task = Task::Explain {
    limit: Limit::Narrow,
    marks: Marks::Strict,
    overviews: Overviews::Opaque,
};

pub(crate) const EXPLAIN_WIDE: Task = Task::Explain {
    limit: Limit::Wide,
    marks: Marks::Lenient,
    overviews: Overviews::Opaque,
};

pub(crate) const CHECK_OVERVIEW: Task = Task::Check {
    limit: Limit::Narrow,
    marks: Marks::Lenient,
    overviews: Overviews::Judged,
};

pub(crate) const CHECK_OVERVIEW_STRICTLY: Task = Task::Check {
    limit: Limit::Narrow,
    marks: Marks::Strict,
    overviews: Overviews::Judged,
};

pub(crate) const CHECK_OVERVIEW_WIDE: Task = Task::Check {
    limit: Limit::Wide,
    marks: Marks::Lenient,
    overviews: Overviews::Judged,
};

pub(crate) const CHECK_OVERVIEW_WIDE_AND_STRICT: Task = Task::Check {
    limit: Limit::Wide,
    marks: Marks::Strict,
    overviews: Overviews::Judged,
};

pub(crate) const VERIFY_OVERVIEW: Task = Task::Verify {
    marks: Marks::Lenient,
    overviews: Overviews::Judged,
};

pub(crate) const VERIFY_OVERVIEW_STRICTLY: Task = Task::Verify {
    marks: Marks::Strict,
    overviews: Overviews::Judged,
};

pub(crate) const EXPLAIN_OVERVIEW: Task = Task::Explain {
    limit: Limit::Narrow,
    marks: Marks::Lenient,
    overviews: Overviews::Judged,
};

pub(crate) const EXPLAIN_OVERVIEW_STRICTLY: Task = Task::Explain {
    limit: Limit::Narrow,
    marks: Marks::Strict,
    overviews: Overviews::Judged,
};

pub(crate) const EXPLAIN_OVERVIEW_WIDE: Task = Task::Explain {
    limit: Limit::Wide,
    marks: Marks::Lenient,
    overviews: Overviews::Judged,
};

pub(crate) const EXPLAIN_OVERVIEW_WIDE_AND_STRICT: Task = Task::Explain {
    limit: Limit::Wide,
    marks: Marks::Strict,
    overviews: Overviews::Judged,
};
