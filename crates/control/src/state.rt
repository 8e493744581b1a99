// What stands between two lines of a run.
use pages::page::Page;

// The line that is due by place and number, the datasource, whether a break writes a form feed, the page, how many tables are open.
#[derive(Clone, Copy)]
pub struct Flow {
    pub at: usize,
    pub line: u32,
    pub datasource: u32,
    pub feeds: bool,
    pub page: Page,
    pub depth: usize,
}
