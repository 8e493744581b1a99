// The checks of a template.
ghost use Rattle.std.specs.Prelude.{◌≡◌};
ghost use Rattle.meaning.specs.Number.{refusal_number};
ghost use Rattle.template.specs.Order.{template_checked};
ghost use Rattle.station.specs.Checks.{ToldCheck};

use meaning::refusal::Refusal;

fn refusal_number(refusal: Refusal) -> u32
    ensures { result ≡ refusal_number refusal }
{
    refusal.number() as u32
}

pub fn station_check(text: &[u8], section: &[u8], line: &mut u32, start: &mut u32) -> u32
    ensures { ToldCheck (template_checked text.now section.now) line.new start.new result }
{
    let checked = template::check(text, section);
    match checked {
        Ok(run) => {
            *line = 0;
            *start = run.line;
            0
        }
        Err((refusal, at)) => {
            *line = at;
            *start = 0;
            refusal_number(refusal)
        }
    }
}
