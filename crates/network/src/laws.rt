// The laws of the format, for all words and all networks.
ghost use Rattle.network.specs.Laws.{Cuts, OneAnswer, OneFault, OneList, OneNetwork, ReadsBack};

pub fn format_stands()
    ensures one_fault { OneFault }
    ensures one_answer { OneAnswer }
    ensures one_network { OneNetwork }
    ensures one_list { OneList }
    ensures reads_back { ReadsBack }
    ensures cuts { Cuts }
{}
