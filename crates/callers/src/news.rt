//! A caller of za_news.

ghost use Rattle.std.specs.Prelude.{◌≡◌, ◌<◌, None, length, MatchResult};
ghost use Rattle.za_lang.specs.Answers.{IsRefusedWith};
ghost use Rattle.za_news.specs.NewsTexts.{news_fault, news_job, news_readings};
ghost use Rattle.za_news.specs.Texts.{news_text};

use std::alloc::Global;
use za_alpha::OutOfMemory;
use za_lang::JobFault;
use za_news::{news_text, read_news};

/// The news of a text of a job with readings: what each process knows of each after the weave. The text
/// is refused as its readers refuse it.
pub fn news_of(alloc: Global, bytes: &[u8]) -> Result<Vec<u8>, JobFault>
    requires { length bytes.now < 4294967295 }
    ensures { MatchResult result
        (λ text. (news_fault bytes.now ≡ None)
        × (text.items ≡ news_text (news_job bytes.now) (news_readings bytes.now)))
        (IsRefusedWith (news_fault bytes.now)) }
{
    let job = read_news(alloc, bytes)?;
    match news_text(alloc, &job) {
        Ok(text) => Ok(text),
        Err(OutOfMemory) => Err(JobFault::OutOfMemory),
    }
}
