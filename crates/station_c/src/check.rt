// The checks of a template.
ghost use Rattle.template.specs.Order.{template_checked};
ghost use Rattle.station.specs.Checks.{ToldCheck};

#[unsafe(no_mangle)]
pub extern "C" fn station_check(text: &[u8], section: &[u8], line: &mut u32, start: &mut u32) -> u32
    ensures { ToldCheck (template_checked text.now section.now) line.new start.new result }
{
    station::check::station_check(text, section, line, start)
}
